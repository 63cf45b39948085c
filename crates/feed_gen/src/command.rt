//! What the sessions ask.

ghost use Rattle.std.specs.Prelude.{◌≡◌, ◌<◌, ◌≤◌, ◌^◌, ◌++◌, ◌∷◌, [], IfOk, OnOk, map, length, string_bytes};
ghost use Rattle.adg_base.specs.declared.command.Command.TheVariants as command;
ghost use Rattle.adg_model.specs.Command.{command_bytes};
ghost use Rattle.feed_gen.specs.Commands.{ask, command_of, asks_own, sums, counts_and_sums, is_own, all_tables, opening_asked, again_asked, abort_asked, transfer_asked, closing_asked, of_sessions};
ghost use Rattle.feed_gen.specs.Written.{with_asked};

use crate::question::Question;
use crate::table::TABLES;
use crate::writer::FeedWriter;
use adg_base::memory::Memory;
use std::alloc::Global;

/// How many sessions there are.
const SESSIONS: u8 = 4;

fn populate_text(alloc: Global, table: u8) -> Result<String, Memory>
    ensures { IfOk result (λ text. string_bytes text ≡ command_bytes (command.Populate table)) }
{
    let mut text = String::new(alloc);
    write!(text, "POPULATE t{table}")?;
    Ok(text)
}

fn sums_text(alloc: Global, table: u8) -> Result<String, Memory>
    ensures { IfOk result (λ text. string_bytes text ≡ command_bytes (sums table)) }
{
    let mut text = String::new(alloc);
    write!(text, "SELECT SUM(c2) FROM t{table} GROUP BY c1")?;
    Ok(text)
}

fn counts_and_sums_text(alloc: Global, table: u8) -> Result<String, Memory>
    ensures { IfOk result (λ text. string_bytes text ≡ command_bytes (counts_and_sums table)) }
{
    let mut text = String::new(alloc);
    write!(text, "SELECT COUNT, SUM(c2) FROM t{table} GROUP BY c1")?;
    Ok(text)
}

/// The text of a command about a table.
fn text_of(alloc: Global, question: Question, table: u8) -> Result<String, Memory>
    ensures { IfOk result (λ text. string_bytes text ≡ command_bytes (command_of question table)) }
{
    match question {
        Question::Populate => populate_text(alloc, table),
        Question::Sums => sums_text(alloc, table),
        Question::CountsAndSums => counts_and_sums_text(alloc, table),
    }
}

/// A session asks something of a table.
fn ask_of(
    alloc: Global,
    feed: &mut FeedWriter,
    session: u8,
    question: Question,
    table: u8,
) -> Result<(), Memory>
    ensures { OnOk result (feed.new ≡ with_asked feed.old (ask session (command_of question table) ∷ [])) }
{
    let text = text_of(alloc, question, table)?;
    feed.ask(session, text.as_str())?;
    Ok(())
}

/// A session asks something of a table, where the table is its own.
fn ask_if_own(
    alloc: Global,
    feed: &mut FeedWriter,
    session: u8,
    question: Question,
    table: u8,
) -> Result<(), Memory>
    ensures { OnOk result (feed.new ≡ with_asked feed.old (asks_own question session (table ∷ []))) }
{
    if table % SESSIONS == session % SESSIONS {
        ask_of(alloc, feed, session, question, table)?;
    }
    Ok(())
}

/// A session asks something of each of its tables.
fn ask_own(
    alloc: Global,
    feed: &mut FeedWriter,
    session: u8,
    question: Question,
) -> Result<(), Memory>
    ensures { OnOk result (feed.new ≡ with_asked feed.old (asks_own question session all_tables)) }
{
    for table in 1..TABLES + 1 {
        ask_if_own(alloc, feed, session, question, table)?;
    }
    Ok(())
}

fn ask_opening_of(alloc: Global, feed: &mut FeedWriter, session: u8) -> Result<(), Memory>
    ensures { OnOk result (feed.new ≡ with_asked feed.old (opening_asked session)) }
{
    feed.ask(session, "SYNC")?;
    ask_own(alloc, feed, session, Question::Populate)?;
    Ok(())
}

/// In the seventh delivery the tables are populated again.
fn ask_again(alloc: Global, feed: &mut FeedWriter, delivery: u32, session: u8) -> Result<(), Memory>
    ensures { OnOk result (feed.new ≡ with_asked feed.old (again_asked delivery session)) }
{
    if delivery == 7 {
        ask_own(alloc, feed, session, Question::Populate)
    } else {
        Ok(())
    }
}

/// In the sixth one the second session aborts.
fn ask_abort(feed: &mut FeedWriter, delivery: u32, session: u8) -> Result<(), Memory>
    ensures { OnOk result (feed.new ≡ with_asked feed.old (abort_asked delivery session)) }
{
    if delivery == 6 && session == 2 {
        feed.ask(session, "ABORT")
    } else {
        Ok(())
    }
}

fn ask_transfers_of(
    alloc: Global,
    feed: &mut FeedWriter,
    delivery: u32,
    session: u8,
) -> Result<(), Memory>
    ensures { OnOk result (feed.new ≡ with_asked feed.old (transfer_asked delivery session)) }
{
    ask_again(alloc, feed, delivery, session)?;
    ask_own(alloc, feed, session, Question::Sums)?;
    ask_abort(feed, delivery, session)?;
    Ok(())
}

/// What the sessions ask in the first delivery.
pub fn ask_opening(alloc: Global, feed: &mut FeedWriter) -> Result<(), Memory>
    ensures { OnOk result (feed.new ≡ with_asked feed.old (of_sessions opening_asked)) }
{
    for session in 1..SESSIONS + 1 {
        ask_opening_of(alloc, feed, session)?;
    }
    Ok(())
}

/// What the sessions ask in a delivery of transfers.
pub fn ask_transfers(alloc: Global, feed: &mut FeedWriter, delivery: u32) -> Result<(), Memory>
    ensures { OnOk result (feed.new ≡ with_asked feed.old (of_sessions (transfer_asked delivery))) }
{
    for session in 1..SESSIONS + 1 {
        ask_transfers_of(alloc, feed, delivery, session)?;
    }
    Ok(())
}

/// What the first session asks in the last delivery.
pub fn ask_closing(alloc: Global, feed: &mut FeedWriter) -> Result<(), Memory>
    ensures { OnOk result (feed.new ≡ with_asked feed.old closing_asked) }
{
    feed.ask(1, "SYNC")?;
    for table in 1..TABLES + 1 {
        ask_of(alloc, feed, 1, Question::CountsAndSums, table)?;
    }
    Ok(())
}
