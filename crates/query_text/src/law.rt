//! Laws of the spellings.

ghost use Rattle.std.specs.Prelude.{◌≡◌};
ghost use Rattle.adg_base.specs.declared.command.Command.{Command};
ghost use Rattle.adg_model.specs.Command.{command_bytes, IsCommand, Spells};

/// What is printed of a command spells that command, and no other: so reading the print gives the
/// command again.
pub fn print_is_read()
    ensures same { (c : Command) → IsCommand c → Spells (command_bytes c) c }
    ensures only { (c other : Command) → IsCommand c → Spells (command_bytes c) other → other ≡ c }
{}
