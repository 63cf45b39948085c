ghost use Rattle.std.specs.Prelude.{ℕ, List, Option, ◌<◌, length, IfOk};
ghost use Rattle.std.specs.Io.{ReadsAtMost, WritesAtMost};
ghost use Rattle.std.specs.Io.KnownBytes.{ReadConsumes, WriteAppends};
ghost use Rattle.adg_io.specs.Faults.{HasCause};

use std::sync::Wait;

/// A read or a write failed. Nothing was taken or appended, and the count of faults rose.
#[derive(Clone, Copy, Debug, PartialEq, Eq)]
pub struct Failed;

/// Where bytes come from.
pub trait Source {
    /// The bytes that are left, where the source tells them.
    ghost left: { Self → Option (List ℕ) };

    /// How often it has failed.
    ghost faults: { Self → ℕ };

    /// Takes the next bytes into the front of the piece, and gives their number. For a piece that
    /// is not empty, 0 is the end of input.
    fn read(&mut self, into: &mut [u8]) -> Result<usize, Failed>
        ensures bound { ReadsAtMost result into.new }
        ensures bytes { ReadConsumes (left self.old) (left self.new) result into.new }
        ensures cause { HasCause (faults self.old) (faults self.new) result };
}

/// Where bytes go.
pub trait Sink {
    /// The bytes that the sink holds, where it tells them.
    ghost held: { Self → Option (List ℕ) };

    /// How often it has failed.
    ghost faults: { Self → ℕ };

    /// Appends the front of the piece, and gives its length. A sink that would take nothing of a
    /// piece that is not empty fails.
    fn write(&mut self, piece: &[u8]) -> Result<usize, Failed>
        ensures bound { WritesAtMost result piece.now }
        ensures some { IfOk result (λ n. 0 < length piece.now → 0 < n) }
        ensures bytes { WriteAppends (held self.old) (held self.new) result piece.now }
        ensures cause { HasCause (faults self.old) (faults self.new) result };
}

/// Where the actors of a delivery pass: a worker before each entry of its batches, the coordinator
/// before each flush, the merger before each piece, a session before each command. A test may hold
/// one up there until another has come.
pub trait Gate: Sync {
    /// `turn` counts the calls of this actor in the delivery, from 0.
    fn pass<H: Wait>(&self, rt: &H, actor: u8, turn: u64);
}
