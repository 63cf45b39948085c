//! The balances of all rows.

use crate::table::{FIRST_BALANCE, ROWS, TABLES};
use crate::transfer::Transfer;
use adg_base::memory::Memory;
use adg_base::number::Obj;
use std::alloc::Global;
use std::marker::Model;

/// How many rows all tables have.
const ALL_ROWS: usize = TABLES as usize * ROWS as usize;

/// The balance of each row of each table, table after table.
#[derive(Debug, Drop)]
pub struct Balances {
    rows: Vec<i64>,
}

impl Model for Balances {
    ghost use Rattle.std.specs.Prelude.{List, ℤ};

    ghost Value = { List ℤ };

    ghost view = { λ b. b.rows.items };
}

/// What the two rows of a transfer have after it.
#[derive(Clone, Copy, Debug, PartialEq, Eq)]
pub struct Settlement {
    pub debited: i64,
    pub credited: i64,
}

impl Balances {
    ghost use Rattle.std.specs.Prelude.{◌≡◌, ◌<◌, ◌≤◌, IfOk, length};
    ghost use Rattle.feed_gen.specs.Transfers.{place_of, first_balances, balance_of, with_balance, debited, credited, settled};
    ghost use Rattle.feed_gen.specs.Bounds.{IsTransfer, AreWithin};

    /// Where the balance of a row stands.
    fn place_of(table: Obj, row: u8) -> usize
        requires table { table ≤ 20 }
        requires row { row < 100 }
        ensures place { result ≡ place_of table row }
        ensures range { result < 2000 }
    {
        usize::from(ROWS) * usize::from(table.get() - 1) + usize::from(row)
    }

    /// What the rows have at first.
    #[tactic(auto, unfolding(crate::specs::Transfers::first_balances))]
    pub fn new(alloc: Global) -> Result<Balances, Memory>
        ensures { IfOk result (λ b. b ≡ first_balances) }
    {
        let rows = vec![in alloc; FIRST_BALANCE; ALL_ROWS]?;
        Ok(Balances { rows })
    }

    fn at(&self, table: Obj, row: u8) -> i64
        requires table { table ≤ 20 }
        requires row { row < 100 }
        requires rows { length self.now ≡ 2000 }
        ensures { result ≡ balance_of self.now table row }
    {
        self.rows[Balances::place_of(table, row)]
    }

    fn set(&mut self, table: Obj, row: u8, balance: i64)
        requires table { table ≤ 20 }
        requires row { row < 100 }
        requires rows { length self.old ≡ 2000 }
        ensures { self.new ≡ with_balance table row balance self.old }
    {
        let place = Balances::place_of(table, row);
        self.rows[place] = balance;
    }

    /// What a transfer makes of its two rows.
    fn settlement(&self, transfer: &Transfer) -> Settlement
        requires transfer { IsTransfer transfer.now }
        requires bounded { AreWithin 20000000 self.now }
        ensures debited { result.debited ≡ debited self.now transfer.now }
        ensures credited { result.credited ≡ credited self.now transfer.now }
    {
        let amount = i64::from(transfer.amount);
        let debited = self.at(transfer.table, transfer.from) - amount;
        let standing = if transfer.to == transfer.from {
            debited
        } else {
            self.at(transfer.table, transfer.to)
        };
        Settlement {
            debited,
            credited: standing + amount,
        }
    }

    /// Makes a transfer, unless it aborts, and says what its two rows have then.
    pub fn settle(&mut self, transfer: &Transfer) -> Settlement
        requires transfer { IsTransfer transfer.now }
        requires bounded { AreWithin 20000000 self.old }
        ensures debited { result.debited ≡ debited self.old transfer.now }
        ensures credited { result.credited ≡ credited self.old transfer.now }
        ensures settled { self.new ≡ settled self.old transfer.now }
    {
        let settlement = self.settlement(transfer);
        if !transfer.aborts {
            self.set(transfer.table, transfer.from, settlement.debited);
            self.set(transfer.table, transfer.to, settlement.credited);
        }
        settlement
    }
}
