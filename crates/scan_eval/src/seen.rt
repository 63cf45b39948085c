ghost use Rattle.std.specs.Prelude.{◌≡◌, List};
ghost use base.Fml.{ftrue};
ghost use Rattle.adg_base.specs.declared.value.Value.{Value as Datum};

use std::marker::Model;

/// The rows that something has seen, for contracts alone: it takes no bytes and no time.
#[derive(Drop)]
pub struct Seen {
    marker: (),
    pub ghost rows: { List (List Datum) },
}

impl Model for Seen {
    ghost also_owns = { λ _. ftrue };
}

impl Seen {
    /// The rows that the caller's proof names, by what it can see of the argument.
    pub fn of<T>(what: &T) -> Seen
        ghost rows: { List (List Datum) }
        ensures { result.rows ≡ rows }
    {
        let _ = what;
        Seen { marker: () }
    }
}
