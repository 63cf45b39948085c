//! The printed lines of a delivery.
#![tactic(auto)]

ghost use Rattle.std.specs.Prelude.{◌≡◌, ◌++◌, IfOk, OnOk, string_bytes};
ghost use Rattle.adg_model.specs.Reply.{lines_bytes, line_bytes, end_line_bytes};

mod cell;
mod reply;

use crate::reply::push_reply;
use adg_base::answer::{Line, Lines};
use adg_base::list::{Bytes, List};
use adg_base::memory::Memory;
use adg_base::number::Scn;
use std::alloc::Global;

/// The lines of a delivery, which counts from 1, as they are printed: each reply with the lines of
/// its answer, and then the line that ends the delivery. One buffer takes all of them.
pub fn render(alloc: Global, lines: &Lines, delivery: u32) -> Result<Bytes, Memory>
    ensures { IfOk result (λ bytes. bytes ≡ lines_bytes delivery lines.now) }
{
    let mut text = String::new(alloc);
    for line in lines.list.as_slice() {
        push_line(&mut text, delivery, line)?;
    }
    push_end(&mut text, delivery, lines.end)?;
    Ok(List::from_vec(text.into_bytes()))
}

/// Adds a reply: its delivery, its session and its number, and what it says.
fn push_line(text: &mut String, delivery: u32, line: &Line) -> Result<(), Memory>
    ensures { OnOk result (string_bytes text.new ≡ string_bytes text.old ++ line_bytes delivery line.now) }
{
    let session = line.session;
    let number = line.number;
    write!(text, "d{delivery} s{session} c{number}")?;
    push_reply(text, &line.reply)
}

/// Adds the line that ends a delivery.
fn push_end(text: &mut String, delivery: u32, end: Scn) -> Result<(), Memory>
    ensures { OnOk result (string_bytes text.new ≡ string_bytes text.old ++ end_line_bytes delivery end) }
{
    let scn = end.get();
    write!(text, "d{delivery} end scn={scn}\n")?;
    Ok(())
}
