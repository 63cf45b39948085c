ghost use Rattle.std.specs.Prelude.{◌≡◌, ◌<◌, ◌^◌, length, IfOk};
ghost use Rattle.turn_rules.specs.Round.{Reads};
ghost use Rattle.step_driver.specs.Seating.{request_shown};

use adg_base::command::Command;
use adg_base::memory::Memory;
use query_text::read::read_command;
use query_text::refused::TextFault;
use std::alloc::Global;

/// What a session asks with a text. A text is read once, as the round begins.
#[derive(Debug, Drop)]
pub enum Request {
    Asks(Command),
    /// The text is no command: `byte` is the length of its longest prefix that begins one.
    Garbles { byte: u32 },
}

impl Request {
    /// What a text asks.
    pub fn read(alloc: Global, text: &[u8]) -> Result<Request, Memory>
        requires { length text.now < 2 ^ 32 }
        ensures { IfOk result (λ request. Reads text.now (request_shown request)) }
    {
        match read_command(alloc, text) {
            Ok(command) => Ok(Request::Asks(command)),
            Err(TextFault::BadQuery { byte }) => Ok(Request::Garbles { byte }),
            Err(TextFault::Memory) => Err(Memory),
        }
    }
}
