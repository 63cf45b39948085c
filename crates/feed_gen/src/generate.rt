//! The feed.

ghost use Rattle.std.specs.Prelude.{◌≡◌, ◌<◌, ◌≤◌, ◌^◌, ◌+◌, ◌*◌, ◌++◌, ◌∷◌, [], IfOk, OnOk};
ghost use Rattle.feed_gen.specs.Transfers.{closing, transfers, after_transfers, opened};
ghost use Rattle.feed_gen.specs.Commands.{closing_asked, of_sessions, transfer_asked};
ghost use Rattle.feed_gen.specs.Generated.{opening, portion_of, portions, transfer_draft, transfer_drafts, last_draft, drafts, generated};
ghost use Rattle.feed_gen.specs.Written.{opened_feed, with_draft, with_drafts};
ghost use Rattle.feed_gen.specs.Bounds.{IsGood, AreKept};

use crate::bank::Bank;
use crate::command::{ask_closing, ask_opening, ask_transfers};
use crate::left_over::write_closing;
use crate::opening::write_opening;
use crate::second::Kept;
use crate::writer::FeedWriter;
use adg_base::list::Bytes;
use adg_base::memory::Memory;
use std::alloc::Global;

/// The most transfers of a feed.
pub const MOST_TRANSFERS: u32 = 100_000;

/// The transfers of a delivery.
const PORTION: u32 = 500;

/// The delivery that makes and loads the tables.
fn write_first(alloc: Global, feed: &mut FeedWriter) -> Result<(), Memory>
    requires { feed.old.records ≡ 0 }
    ensures { OnOk result (feed.new ≡ with_draft feed.old opening) }
{
    write_opening(alloc, feed)?;
    ask_opening(alloc, feed)?;
    feed.end_delivery()?;
    Ok(())
}

/// A delivery of transfers.
fn write_portion(
    alloc: Global,
    feed: &mut FeedWriter,
    bank: &mut Bank,
    delivery: u32,
    count: u32,
) -> Result<(), Memory>
    requires good { IsGood bank.old }
    requires few { bank.old.made + count ≤ 100000 }
    requires room { feed.old.records < 2 ^ 29 }
    ensures bank { OnOk result (bank.new ≡ after_transfers count bank.old) }
    ensures feed { OnOk result (feed.new ≡ with_draft feed.old (transfer_draft delivery count bank.old)) }
{
    bank.transfers(alloc, feed, count)?;
    ask_transfers(alloc, feed, delivery)?;
    feed.end_delivery()?;
    Ok(())
}

/// The delivery that ends the threads.
fn write_last(alloc: Global, feed: &mut FeedWriter, kept: &Kept) -> Result<(), Memory>
    requires kept { AreKept kept.now }
    requires room { feed.old.records < 2 ^ 29 }
    ensures { OnOk result (feed.new ≡ with_draft feed.old (last_draft kept.now)) }
{
    write_closing(alloc, feed, kept)?;
    ask_closing(alloc, feed)?;
    feed.end_delivery()?;
    Ok(())
}

/// How many transfers a portion has.
fn portion_of(txns: u32, portion: u32) -> u32
    requires txns { txns ≤ 100000 }
    requires within { 500 * portion ≤ txns }
    ensures count { result ≡ portion_of txns portion }
    ensures few { 500 * portion + result ≤ txns }
{
    (txns - PORTION * portion).min(PORTION)
}

/// The deliveries after the first.
fn write_portions(
    alloc: Global,
    feed: &mut FeedWriter,
    bank: &mut Bank,
    txns: u32,
) -> Result<(), Memory>
    requires good { IsGood bank.old }
    requires none { bank.old.made ≡ 0 }
    requires few { txns ≤ 100000 }
    requires room { feed.old.records ≤ 60 }
    ensures { OnOk result (feed.new ≡ with_drafts feed.old (transfer_drafts 2 (portions txns) bank.old)) }
{
    for portion in 0..txns.div_ceil(PORTION) {
        let count = portion_of(txns, portion);
        write_portion(alloc, feed, bank, 2 + portion, count)?;
    }
    write_last(alloc, feed, &bank.kept)?;
    Ok(())
}

/// The feed of a bank of three threads and four sessions: twenty tables are made and loaded, and then
/// so many transfers are made, as the seed draws them.
pub fn generate(alloc: Global, seed: u64, txns: u32) -> Result<Bytes, Memory>
    requires { txns ≤ 100000 }
    ensures { IfOk result (λ bytes. bytes ≡ generated seed txns) }
{
    let mut feed = FeedWriter::new(alloc)?;
    write_first(alloc, &mut feed)?;
    let mut bank = Bank::new(alloc, seed)?;
    write_portions(alloc, &mut feed, &mut bank, txns)?;
    let bytes = feed.finish()?;
    Ok(bytes)
}
