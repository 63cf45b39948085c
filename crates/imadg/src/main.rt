//! The program `imadg`: it answers the feed on standard input to standard output.
#![tactic(auto)]

use adg_io::gate::OpenGate;
use adg_io::standard::{StdSink, StdSource};
use command_line::{arguments, exit_code, words};
use imadg_top::{Status, standby};
use std::io::BufReader;
use std::process::ExitCode;

/// How many bytes of standard input are read ahead. A frame is taken in small pieces.
const READ_AHEAD: usize = 65_536;

fn main(rt: HostRuntime) -> ExitCode {
    let Ok(arguments) = arguments(&rt) else {
        return exit_code(Status::NoMemory.code());
    };
    let Ok(input) = BufReader::with_capacity(rt.alloc(), READ_AHEAD, rt.stdin()) else {
        return exit_code(Status::NoMemory.code());
    };
    let mut source = StdSource::new(input);
    let mut sink = StdSink::new(rt.stdout());
    let outcome = standby(
        &rt,
        rt.alloc(),
        words(arguments.as_slice()),
        &mut source,
        &mut sink,
        &OpenGate,
    );
    exit_code(outcome.status)
}
