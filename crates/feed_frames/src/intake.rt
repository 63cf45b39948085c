ghost use Rattle.std.specs.Prelude.{◌≡◌, ℕ, List, [], ◌∷◌, ◌++◌, ◌+◌, ◌^◌, ◌<◌, ◌≤◌, length, slice_index, MatchResult};
ghost use Rattle.std.specs.Int.{w32, to_be_bytes};
ghost use Rattle.feed_frames.specs.Intake.{Took, TookOnto, Misses, HasCauseIn};

use adg_io::outside::Source;
use adg_io::transfer::{FillEnd, fill};
use adg_model::fault::FeedKind;
use byteorder::{BigEndian, ByteOrder};

/// The most bytes that are asked for in one piece.
const MOST_PIECE: usize = 65_536;

/// Takes as many bytes as the piece has, and counts those that came.
pub fn take_piece<R: Source>(
    source: &mut R,
    taken: &mut u64,
    piece: &mut [u8],
) -> Result<(), FeedKind>
    requires { taken.old + length piece.old < 2 ^ 64 }
    ensures took { MatchResult result
        (λ _. Took (R.left source.old) (R.left source.new) taken.old taken.new piece.new)
        (Misses (R.left source.old) (R.left source.new) taken.old taken.new (length piece.old)) }
    ensures cause { HasCauseIn result (R.faults source.old) (R.faults source.new) }
    ensures bytes { (i : ℕ) → slice_index piece.new i < 256 }
{
    let filled = fill(source, piece);
    *taken += filled.count as u64;
    match filled.ending {
        FillEnd::Whole => Ok(()),
        FillEnd::AtEnd => Err(FeedKind::Truncated),
        FillEnd::Failed => Err(FeedKind::Read),
    }
}

/// Takes one byte.
pub fn take_byte<R: Source>(source: &mut R, taken: &mut u64) -> Result<u8, FeedKind>
    requires { taken.old + 1 < 2 ^ 64 }
    ensures took { MatchResult result
        (λ byte. Took (R.left source.old) (R.left source.new) taken.old taken.new (byte ∷ []))
        (Misses (R.left source.old) (R.left source.new) taken.old taken.new 1) }
    ensures cause { HasCauseIn result (R.faults source.old) (R.faults source.new) }
{
    let mut piece = [0];
    take_piece(source, taken, &mut piece)?;
    Ok(piece[0])
}

/// Takes the length of a frame.
pub fn take_length<R: Source>(source: &mut R, taken: &mut u64) -> Result<u32, FeedKind>
    requires { taken.old + 4 < 2 ^ 64 }
    ensures took { MatchResult result
        (λ len. Took (R.left source.old) (R.left source.new) taken.old taken.new (to_be_bytes w32 len))
        (Misses (R.left source.old) (R.left source.new) taken.old taken.new 4) }
    ensures cause { HasCauseIn result (R.faults source.old) (R.faults source.new) }
{
    let mut piece = [0; 4];
    take_piece(source, taken, &mut piece)?;
    Ok(BigEndian::read_u32(&piece))
}

/// Takes a payload of so many bytes, piece by piece, and appends it.
pub fn take_payload<R: Source>(
    source: &mut R,
    taken: &mut u64,
    into: &mut Vec<u8>,
    len: usize,
) -> Result<(), FeedKind>
    requires { taken.old + len < 2 ^ 64 }
    ensures took { MatchResult result
        (λ _. TookOnto (R.left source.old) (R.left source.new) taken.old taken.new into.old.items into.new.items len)
        (Misses (R.left source.old) (R.left source.new) taken.old taken.new len) }
    ensures cause { HasCauseIn result (R.faults source.old) (R.faults source.new) }
{
    let mut missing = len;
    while missing > 0 {
        let wanted = missing.min(MOST_PIECE);
        take_onto(source, taken, into, wanted)?;
        missing -= wanted;
    }
    Ok(())
}

/// Takes one piece of so many bytes, and appends it.
fn take_onto<R: Source>(
    source: &mut R,
    taken: &mut u64,
    into: &mut Vec<u8>,
    wanted: usize,
) -> Result<(), FeedKind>
    requires some { 0 < wanted }
    requires few { wanted ≤ 65536 }
    requires room { taken.old + wanted < 2 ^ 64 }
    ensures took { MatchResult result
        (λ _. TookOnto (R.left source.old) (R.left source.new) taken.old taken.new into.old.items into.new.items wanted)
        (Misses (R.left source.old) (R.left source.new) taken.old taken.new wanted) }
    ensures cause { HasCauseIn result (R.faults source.old) (R.faults source.new) }
{
    let start = into.len();
    // Room is taken before any byte is: on want of memory the source stands where it stood.
    into.resize(start + wanted, 0)?;
    take_piece(source, taken, &mut into[start..])
}
