//! Plays feeds on the bench.

use crate::run;
use core_standby::Workers;
use feed_text::assemble::assemble;
use std::alloc::Global;
use std::process::Abort;
use std::str::from_utf8;
use std::test::Fail;

/// Runs the feed that a text stands for, and compares its lines.
pub fn play(
    rt: &impl Abort,
    alloc: Global,
    name: &str,
    workers: u8,
    text: &str,
    lines: &str,
) -> Result<(), Fail> {
    if workers < 1 || workers > 8 {
        return Err(Fail::new("so many workers"));
    }
    let feed = assemble(alloc, text.as_bytes())?;
    let answer = run(alloc, Workers::new(workers), feed)?;
    let written = from_utf8(answer.lines.as_slice())?;
    assert_eq!(rt; written, lines, "{name}, {workers} workers");
    assert_eq!(rt; answer.status, 0, "{name}, {workers} workers");
    Ok(())
}

/// The line of schedule bytes; none where there are no words.
pub fn schedule_line(alloc: Global, words: &str) -> Result<String, Fail> {
    if words.is_empty() {
        return Ok(String::new(alloc));
    }
    Ok(format!(in alloc; "schedule {words}\n")?)
}
