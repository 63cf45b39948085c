//! The command that a text spells.

ghost use Rattle.std.specs.Prelude.{◌≡◌, ℕ, ◌<◌, ◌^◌, ◌⊎◌, length, IfOk};
ghost use Rattle.std.specs.Fmt.{decimal};
ghost use Rattle.adg_base.specs.declared.command.Command.{Command};
ghost use Rattle.adg_model.specs.Spelling.{IsObj};
ghost use Rattle.adg_model.specs.Command.{command_bytes, IsCommand, Spells, IsBadQuery};
ghost use Rattle.query_text.specs.Stopping.{Reads, ReadsAll, Anything};
ghost use Rattle.query_text.specs.Parts.{IsVerb, verb_bytes, IsWhole};

use crate::fault::Fault;
use crate::number::object_of;
use crate::refused::TextFault;
use crate::select::select_of;
use crate::word::word_of;
use adg_base::command::Command;
use adg_base::number::Obj;
use std::alloc::Global;

/// How a command begins.
#[derive(Clone, Copy, Debug, PartialEq, Eq)]
pub enum Verb {
    Select,
    Populate,
    Sync,
    ShowScn,
    Abort,
}

/// How the command begins, and the bytes behind that.
fn verb_of(bytes: &[u8]) -> Result<(Verb, &[u8]), Fault>
    ensures { Reads (λ x. x.0) (λ x. x.1.now) Anything IsVerb verb_bytes bytes.now result }
{
    let words = [
        (b"SELECT ".as_slice(), Verb::Select),
        (b"POPULATE t".as_slice(), Verb::Populate),
        (b"SYNC".as_slice(), Verb::Sync),
        (b"SHOW SCN".as_slice(), Verb::ShowScn),
        (b"ABORT".as_slice(), Verb::Abort),
    ];
    word_of(&words, bytes)
}

/// The command, where no bytes are left behind it.
fn whole(command: Command, rest: &[u8]) -> Result<Command, Fault>
    ensures { IsWhole command rest.now result }
{
    if rest.is_empty() {
        Ok(command)
    } else {
        Err(Fault::Stopped { left: rest.len() })
    }
}

/// The object that the bytes spell, all of them.
fn populated(bytes: &[u8]) -> Result<Obj, Fault>
    ensures { ReadsAll (λ o. o) IsObj decimal bytes.now result }
{
    match object_of(bytes) {
        Ok((obj, [])) => match Obj::new(obj) {
            Some(obj) => Ok(obj),
            None => Err(Fault::Stopped { left: bytes.len() }),
        },
        Ok((_, rest)) => Err(Fault::Stopped { left: rest.len() }),
        Err(fault) => Err(fault),
    }
}

/// The command that the text spells, all of it.
fn command_of(alloc: Global, text: &[u8]) -> Result<Command, Fault>
    ensures { ReadsAll (λ c. c) IsCommand command_bytes text.now result }
{
    let (verb, rest) = verb_of(text)?;
    match verb {
        Verb::Select => Ok(Command::Select(select_of(alloc, rest)?)),
        Verb::Populate => match populated(rest) {
            Ok(obj) => Ok(Command::Populate { obj }),
            Err(fault) => Err(fault),
        },
        Verb::Sync => whole(Command::Sync, rest),
        Verb::ShowScn => whole(Command::ShowScn, rest),
        Verb::Abort => whole(Command::Abort, rest),
    }
}

/// The command that the text spells.
pub fn read_command(alloc: Global, text: &[u8]) -> Result<Command, TextFault>
    requires { length text.now < 2 ^ 32 }
    // The command is spelled so, and is the only one.
    ensures found { IfOk result (λ c. Spells text.now c) }
    ensures one { IfOk result (λ c. (other : Command) → Spells text.now other → other ≡ c) }
    // Where the text is no command, the byte is the length of its longest prefix that some command begins with.
    ensures bad { (byte : ℕ) → result ≡ Err (TextFault.BadQuery byte) → IsBadQuery text.now byte }
    // What spells a command is read, unless memory runs out.
    ensures only { (c : Command) → Spells text.now c → (result ≡ Ok c) ⊎ (result ≡ Err TextFault.Memory) }
{
    match command_of(alloc, text) {
        Ok(command) => Ok(command),
        Err(Fault::Stopped { left }) => Err(TextFault::BadQuery {
            byte: (text.len() - left) as u32,
        }),
        Err(Fault::Memory) => Err(TextFault::Memory),
    }
}
