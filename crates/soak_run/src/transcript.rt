use adg_io::outside::{Failed, Sink};
use std::alloc::Global;

/// A sink that keeps all that it takes. It fails where memory is wanting, and nowhere else.
#[derive(Debug, Drop)]
pub struct Transcript {
    pub bytes: Vec<u8>,
    pub faults: u64,
}

impl Transcript {
    ghost use Rattle.std.specs.Prelude.{◌≡◌, []};

    /// Nothing is taken yet.
    pub fn new(alloc: Global) -> Transcript
        ensures { result.bytes.items ≡ [] }
    {
        Transcript {
            bytes: Vec::new(alloc),
            faults: 0,
        }
    }
}

impl Sink for Transcript {
    ghost use Rattle.std.specs.Prelude.{Some};

    ghost held = { λ t. Some t.bytes.items };

    ghost faults = { λ t. t.faults };

    fn write(&mut self, piece: &[u8]) -> Result<usize, Failed> {
        match self.bytes.extend_from_slice(piece) {
            Ok(()) => Ok(piece.len()),
            Err(_) => {
                self.faults = self.faults.saturating_add(1);
                Err(Failed)
            }
        }
    }
}
