ghost use Rattle.std.specs.Prelude.{◌≡◌, ◌++◌, ℕ, List, [], ◌+◌, ◌^◌, ◌<◌, IfErr, OnOk, MatchResult};
ghost use Rattle.adg_model.specs.Feed.{IsHeader, first_frame_fault, first_tag_fault, magic, header_bytes, header_tag, start};
ghost use Rattle.feed_frames.specs.Intake.{Took, HasCauseIn};
ghost use Rattle.feed_frames.specs.Counts.{standing_of};
ghost use Rattle.feed_frames.specs.Frames.{StopsAfter};
ghost use Rattle.feed_frames.specs.Opening.{ReadOpening, MagicMissing, NoOpening};
ghost use Rattle.feed_frames.specs.Counts.{IsShown, Judges};
ghost use Rattle.feed_frames.specs.Answers.{IsCausedBy};

use crate::counts::{MOST_ACTORS, Standing, is_in};
use crate::fault::FeedFault;
use crate::intake::{take_byte, take_length, take_piece};
use adg_io::outside::Source;
use adg_model::fault::FeedKind;

/// The first bytes of a feed.
const MAGIC: [u8; 8] = *b"IMADG01\n";

/// Reads the magic and the header.
pub fn read_opening<R: Source>(source: &mut R, taken: &mut u64) -> Result<Standing, FeedFault>
    requires { taken.old ≡ 0 }
    ensures opening { MatchResult result
        (ReadOpening (R.left source.old) (R.left source.new) taken.old taken.new)
        (NoOpening (R.left source.old) (R.left source.new) taken.old taken.new) }
    ensures counted { OnOk result (taken.new ≡ 15) }
    ensures cause { IsCausedBy result (R.faults source.old) (R.faults source.new) }
{
    if let Err(kind) = read_magic(source, taken) {
        return Err(FeedFault::new(kind, 0, *taken));
    }
    let start = *taken;
    match read_first_frame(source, taken) {
        Ok(standing) => Ok(standing),
        Err(kind) => Err(FeedFault::new(kind, start, *taken)),
    }
}

/// Reads the magic.
fn read_magic<R: Source>(source: &mut R, taken: &mut u64) -> Result<(), FeedKind>
    requires { taken.old ≡ 0 }
    ensures magic { MatchResult result
        (λ _. Took (R.left source.old) (R.left source.new) taken.old taken.new magic)
        (MagicMissing (R.left source.old) (R.left source.new) taken.old taken.new) }
    ensures counted { OnOk result (taken.new ≡ 8) }
    ensures cause { HasCauseIn result (R.faults source.old) (R.faults source.new) }
{
    let mut bytes = [0; 8];
    take_piece(source, taken, &mut bytes)?;
    if bytes == MAGIC {
        Ok(())
    } else {
        Err(FeedKind::BadMagic)
    }
}

/// Reads the first frame, which has to be the header.
fn read_first_frame<R: Source>(source: &mut R, taken: &mut u64) -> Result<Standing, FeedKind>
    requires { taken.old < 100 }
    ensures header { MatchResult result
        (λ p. IsHeader p.threads p.sessions × (standing_of p ≡ start p.threads p.sessions)
        × Took (R.left source.old) (R.left source.new) taken.old taken.new (header_bytes p.threads p.sessions))
        (StopsAfter [] first_frame_fault (R.left source.old) (R.left source.new) taken.old taken.new) }
    ensures counted { OnOk result (taken.new ≡ taken.old + 7) }
    ensures cause { HasCauseIn result (R.faults source.old) (R.faults source.new) }
{
    check_first_tag(take_byte(source, taken)?)?;
    let len = take_length(source, taken)?;
    if len != 2 {
        return Err(FeedKind::BadLength);
    }
    let threads = take_byte(source, taken)?;
    if !is_in(MOST_ACTORS, threads) {
        return Err(FeedKind::BadThread);
    }
    let sessions = take_byte(source, taken)?;
    if !is_in(MOST_ACTORS, sessions) {
        return Err(FeedKind::BadSession);
    }
    Ok(Standing {
        threads,
        sessions,
        redo: 0,
        ends: 0,
    })
}

/// Judges the tag of the first frame.
fn check_first_tag(byte: u8) -> Result<(), FeedKind>
    ensures fault { Judges result (first_tag_fault byte) }
    ensures tag { OnOk result (byte ≡ header_tag) }
    ensures shown { IfErr result IsShown }
{
    match byte {
        b'H' => Ok(()),
        b'R' | b'Q' | b'S' | b'E' | b'X' => Err(FeedKind::BadOrder),
        _ => Err(FeedKind::BadTag),
    }
}
