//! Events and answers in short, so that a run is a table.

use adg_base::answer::{Line, Lines, Reply};
use adg_base::command::{Command, Select};
use adg_base::list::{Bytes, Duplicate, List};
use adg_base::number::{Obj, Scn};
use answer_lines::render;
use core_rules::event::{CoreAnswer, Event};
use query_text::read::read_command;
use std::alloc::Global;
use std::test::Fail;

/// An event: the worker, actor or session that it names, and an SCN, an object or the text of a SELECT.
#[derive(Clone, Copy, Debug)]
pub enum Ask {
    Apply(u8),
    Mine(u8),
    Raise(u8, u64),
    BeginFlush(u64),
    Claim(u8),
    Collect(u8),
    Touch(u8),
    Done(u8),
    Publish,
    PopBegin(u8, u16),
    PopRegister(u8),
    PopRelease(u8),
    PopRead(u8),
    PopEnd(u8),
    ScanBegin(u8, &'static str),
    ScanExtent(u8),
    ScanEnd(u8),
    Restart,
}

/// What an event is to be answered: a reply as it is printed, from its SCN on.
#[derive(Clone, Copy, Debug)]
pub enum Want {
    NotReady,
    Moved,
    Said(&'static str),
}

pub fn scn_of(number: u64) -> Result<Scn, Fail> {
    Ok(Scn::new(number).ok_or("an SCN")?)
}

fn select_of(alloc: Global, text: &str) -> Result<Select, Fail> {
    if text.len() > 1024 {
        return Err(Fail::new("a text that is too long"));
    }
    match read_command(alloc, text.as_bytes())? {
        Command::Select(select) => Ok(select),
        _ => Err(Fail::new("no SELECT")),
    }
}

/// The event that is asked.
pub fn event_of(alloc: Global, ask: Ask) -> Result<Event, Fail> {
    let event = match ask {
        Ask::Apply(worker) => Event::Apply { worker },
        Ask::Mine(worker) => Event::Mine { worker },
        Ask::Raise(worker, through) => Event::Raise {
            worker,
            through: scn_of(through)?,
        },
        Ask::BeginFlush(through) => Event::BeginFlush {
            through: scn_of(through)?,
        },
        Ask::Claim(actor) => Event::Claim { actor },
        Ask::Collect(actor) => Event::Collect { actor },
        Ask::Touch(actor) => Event::Touch { actor },
        Ask::Done(actor) => Event::Done { actor },
        Ask::Publish => Event::Publish,
        Ask::PopBegin(session, obj) => Event::PopBegin {
            session,
            obj: Obj::new(obj).ok_or("an object")?,
        },
        Ask::PopRegister(session) => Event::PopRegister { session },
        Ask::PopRelease(session) => Event::PopRelease { session },
        Ask::PopRead(session) => Event::PopRead { session },
        Ask::PopEnd(session) => Event::PopEnd { session },
        Ask::ScanBegin(session, text) => Event::ScanBegin {
            session,
            select: select_of(alloc, text)?,
        },
        Ask::ScanExtent(session) => Event::ScanExtent { session },
        Ask::ScanEnd(session) => Event::ScanEnd { session },
        Ask::Restart => Event::Restart,
    };
    Ok(event)
}

/// A reply as the first of a first delivery that ends with SCN 0.
fn printed(alloc: Global, reply: Reply) -> Result<Bytes, Fail> {
    let mut list = List::new(alloc);
    list.push(Line {
        session: 1,
        number: 1,
        reply,
    })?;
    let lines = Lines {
        list,
        end: Scn::ZERO,
    };
    Ok(render(alloc, &lines, 1)?)
}

/// Whether an answer is what is wanted.
pub fn is_wanted(alloc: Global, answer: &CoreAnswer, want: Want) -> Result<bool, Fail> {
    match (answer, want) {
        (CoreAnswer::NotReady, Want::NotReady) | (CoreAnswer::Moved, Want::Moved) => Ok(true),
        (CoreAnswer::Said(reply), Want::Said(text)) => {
            let said = printed(alloc, reply.copy(alloc)?)?;
            let wanted = format!(in alloc; "d1 s1 c1 {text}\nd1 end scn=0\n")?;
            Ok(said.as_slice() == wanted.as_bytes())
        }
        _ => Ok(false),
    }
}
