//! The transfers.

use crate::balances::Balances;
use crate::left_over::write_left_over;
use crate::record::first_record;
use crate::second::{Kept, Second};
use crate::source::RandomSource;
use crate::table::thread_of;
use crate::transfer::draw;
use crate::writer::FeedWriter;
use adg_base::memory::Memory;
use adg_base::number::Txn;
use std::alloc::Global;

/// Where the transfers stand: the random source, what the rows have, what the threads keep, and how
/// many transfers were made.
#[derive(Debug, Drop)]
pub struct Bank {
    pub source: RandomSource,
    pub balances: Balances,
    pub kept: Kept,
    pub made: u32,
}

impl Bank {
    ghost use Rattle.std.specs.Prelude.{◌≡◌, ◌<◌, ◌≤◌, ◌+◌, ◌*◌, ◌^◌, IfOk, OnOk, [], ◌∷◌};
    ghost use Rattle.feed_gen.specs.Transfers.{opened, transfer_writings, after_transfer, transfers, after_transfers, number_of};
    ghost use Rattle.feed_gen.specs.Written.{with_writings};
    ghost use Rattle.feed_gen.specs.Bounds.{IsGood};

    /// The bank before the first transfer.
    pub fn new(alloc: Global, seed: u64) -> Result<Bank, Memory>
        ensures { IfOk result (λ bank. bank ≡ opened seed) }
    {
        let balances = Balances::new(alloc)?;
        Ok(Bank {
            source: RandomSource::new(seed),
            balances,
            kept: Kept::new(),
            made: 0,
        })
    }

    /// The transaction of the next transfer.
    fn next_txn(&self) -> Txn
        ensures { result ≡ number_of self.now }
    {
        Txn::new(1_001 + u64::from(self.made)).unwrap()
    }

    /// Makes a transfer: what its thread has kept goes out, then the first record, and the second
    /// one is kept.
    pub fn transfer(&mut self, alloc: Global, feed: &mut FeedWriter) -> Result<(), Memory>
        requires good { IsGood self.old }
        requires few { self.old.made < 100000 }
        requires room { feed.old.records < 2 ^ 30 }
        ensures bank { OnOk result (self.new ≡ after_transfer self.old) }
        ensures feed { OnOk result (feed.new ≡ with_writings feed.old (transfer_writings self.old)) }
    {
        let txn = self.next_txn();
        let transfer = draw(&mut self.source);
        let settlement = self.balances.settle(&transfer);
        let thread = thread_of(transfer.table);
        let second = Second {
            txn,
            table: transfer.table,
            from: transfer.from,
            to: transfer.to,
            balance: settlement.credited,
            aborts: transfer.aborts,
        };
        let earlier = self.kept.replace(thread, second);
        write_left_over(alloc, feed, thread, &earlier)?;
        let first = first_record(alloc, txn, &transfer, settlement.debited)?;
        feed.write(alloc, first)?;
        self.made += 1;
        Ok(())
    }

    /// Makes so many transfers.
    pub fn transfers(
        &mut self,
        alloc: Global,
        feed: &mut FeedWriter,
        count: u32,
    ) -> Result<(), Memory>
        requires good { IsGood self.old }
        requires few { self.old.made + count ≤ 100000 }
        requires room { feed.old.records < 2 ^ 29 }
        ensures bank { OnOk result (self.new ≡ after_transfers count self.old) }
        ensures feed { OnOk result (feed.new ≡ with_writings feed.old (transfers count self.old)) }
    {
        for _number in 0..count {
            self.transfer(alloc, feed)?;
        }
        Ok(())
    }
}
