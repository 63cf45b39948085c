//! What a program is told by its command line, and what it tells the system as it ends.
#![tactic(auto)]

ghost use Rattle.std.specs.Prelude.{◌≡◌, drop};
ghost use Rattle.std.specs.Process.{exit_status};

use std::alloc::{AllocError, Global};
use std::env;
use std::io::ErrorKind;
use std::process::ExitCode;
use std::rt::Env;

/// The arguments, the program's name first. Where one of them is no UTF-8 there are none: neither is
/// an accepted line of a program here.
pub fn arguments<H: Env + Alloc<A = Global>>(rt: &H) -> Result<Vec<String>, AllocError> {
    match env::args(rt) {
        Ok(arguments) => arguments.collect(rt.alloc()),
        Err(error) if error.kind() == ErrorKind::OutOfMemory => Err(AllocError),
        Err(_) => Ok(Vec::new(rt.alloc())),
    }
}

/// The words of the command line: the arguments without the program's name.
pub fn words(arguments: &[String]) -> &[String]
    ensures { result.now ≡ drop 1 arguments.now }
{
    match arguments {
        [] => arguments,
        [_name, words @ ..] => words,
    }
}

/// What the system is told of a status.
pub fn exit_code(status: u8) -> ExitCode
    ensures { exit_status result ≡ status }
{
    ExitCode::from(status)
}
