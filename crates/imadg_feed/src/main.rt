//! The program `imadg_feed`: it turns a text on standard input into the feed that it stands for, or
//! a feed into text, and writes that to standard output.
#![tactic(auto)]

use adg_io::standard::{StdSink, StdSource};
use command_line::{arguments, exit_code, words};
use feed_text::top::{Ended, run};
use std::io::BufReader;
use std::process::ExitCode;

/// How many bytes of standard input are read ahead. A frame is taken in small pieces.
const READ_AHEAD: usize = 65_536;

fn main(rt: HostRuntime) -> ExitCode {
    let Ok(arguments) = arguments(&rt) else {
        return exit_code(Ended::NoMemory.code());
    };
    let Ok(input) = BufReader::with_capacity(rt.alloc(), READ_AHEAD, rt.stdin()) else {
        return exit_code(Ended::NoMemory.code());
    };
    let mut source = StdSource::new(input);
    let mut sink = StdSink::new(rt.stdout());
    let mut errors = StdSink::new(rt.stderr());
    let ended = run(
        rt.alloc(),
        words(arguments.as_slice()),
        &mut source,
        &mut sink,
        &mut errors,
    );
    exit_code(ended.code())
}
