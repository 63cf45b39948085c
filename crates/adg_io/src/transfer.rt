ghost use Rattle.std.specs.Prelude.{◌≡◌, ◌≢◌, ◌↔◌, ◌≤◌, ◌<◌, IsTrue, length, take, true, false};
ghost use Rattle.std.specs.Io.KnownBytes.{Appends, Consumes, IsAtEnd};
ghost use Rattle.adg_io.specs.Faults.{Rose};

use crate::outside::{Failed, Sink, Source};

/// How the filling of a piece ended.
#[derive(Clone, Copy, Debug, PartialEq, Eq)]
pub enum FillEnd {
    /// The piece is full.
    Whole,
    /// The source ended before.
    AtEnd,
    /// The source failed before.
    Failed,
}

/// How many bytes of a piece were filled, and why no more.
#[derive(Clone, Copy, Debug, PartialEq, Eq)]
pub struct Filled {
    /// The bytes at the front of the piece that come from the source.
    pub count: usize,
    /// Why no more.
    pub ending: FillEnd,
}

/// How many bytes of a piece were written, and whether that is all.
#[derive(Clone, Copy, Debug, PartialEq, Eq)]
pub struct Written {
    /// The bytes at the front of the piece that the sink took.
    pub count: usize,
    /// Whether it took all; if not, it failed.
    pub whole: bool,
}

/// Fills a piece: asks again for what is missing until the piece is full, the source is at its
/// end, or it fails.
pub fn fill<R: Source>(source: &mut R, into: &mut [u8]) -> Filled
    ensures count { result.count ≤ length into.new }
    ensures bytes { Consumes (R.left source.old) (R.left source.new) (take result.count into.new) }
    ensures whole { (result.ending ≡ FillEnd.Whole) ↔ (result.count ≡ length into.new) }
    ensures at_end { result.ending ≡ FillEnd.AtEnd → IsAtEnd (R.left source.new) }
    ensures failed { result.ending ≡ FillEnd.Failed →
        Rose (R.faults source.old) (R.faults source.new) }
    ensures honest { result.ending ≢ FillEnd.Failed →
        R.faults source.new ≡ R.faults source.old }
    ensures later { R.faults source.old ≤ R.faults source.new }
    ensures empty { length into.old ≡ 0 → source.new ≡ source.old }
{
    let mut count = 0;
    while count < into.len() {
        match source.read(&mut into[count..]) {
            Ok(0) => {
                let ending = FillEnd::AtEnd;
                return Filled { count, ending };
            }
            Ok(given) => count += given,
            Err(Failed) => {
                let ending = FillEnd::Failed;
                return Filled { count, ending };
            }
        }
    }
    let ending = FillEnd::Whole;
    Filled { count, ending }
}

/// Writes a piece: offers again what the sink did not take, until it took all or fails.
pub fn write_whole<K: Sink>(sink: &mut K, piece: &[u8]) -> Written
    ensures count { result.count ≤ length piece.now }
    ensures bytes { Appends (K.held sink.old) (K.held sink.new) (take result.count piece.now) }
    ensures whole { IsTrue result.whole ↔ (result.count ≡ length piece.now) }
    ensures failed { result.whole ≡ false → Rose (K.faults sink.old) (K.faults sink.new) }
    ensures honest { result.whole ≡ true → K.faults sink.new ≡ K.faults sink.old }
    ensures later { K.faults sink.old ≤ K.faults sink.new }
    ensures empty { length piece.now ≡ 0 → sink.new ≡ sink.old }
{
    let mut count = 0;
    while count < piece.len() {
        match sink.write(&piece[count..]) {
            Ok(taken) => count += taken,
            Err(Failed) => {
                return Written {
                    count,
                    whole: false,
                };
            }
        }
    }
    Written { count, whole: true }
}
