ghost use Rattle.std.specs.Prelude.{◌≡◌, ℕ, List, [], ◌+◌, ◌^◌, ◌<◌, IfOk, OnOk, MatchResult};
ghost use Rattle.adg_model.specs.Feed.{Item, frame_fault};
ghost use Rattle.feed_frames.specs.Intake.{Took, HasCauseIn};
ghost use Rattle.feed_frames.specs.Counts.{IsCountOf, HasRoom, standing_of};
ghost use Rattle.feed_frames.specs.Frames.{StopsAfter, IsGoodHead, head_bytes};

use crate::counts::Counts;
use crate::intake::{take_byte, take_length};
use crate::tag::Tag;
use adg_io::outside::Source;
use adg_model::fault::FeedKind;

/// The tag of a frame and the length of its payload.
#[derive(Clone, Copy, Debug)]
pub struct Head {
    pub tag: Tag,
    pub len: u32,
}

/// Takes the head of the next frame of a delivery, and judges the tag before the length is taken.
pub fn read_head<R: Source>(
    counts: &Counts,
    source: &mut R,
    taken: &mut u64,
) -> Result<Head, FeedKind>
    requires { taken.old + 5 < 2 ^ 64 }
    ensures head { (before : List Item) → IsCountOf counts.now before → let st = standing_of counts.now.standing in
        MatchResult result
        (λ head. Took (R.left source.old) (R.left source.new) taken.old taken.new (head_bytes head) × IsGoodHead st before head)
        (StopsAfter [] (frame_fault st before) (R.left source.old) (R.left source.new) taken.old taken.new) }
    ensures room { IfOk result (λ head. HasRoom counts.now head.tag head.len) }
    ensures counted { OnOk result (taken.new ≡ taken.old + 5) }
    ensures cause { HasCauseIn result (R.faults source.old) (R.faults source.new) }
{
    let tag = counts.check_tag(take_byte(source, taken)?)?;
    let len = take_length(source, taken)?;
    counts.check_length(tag, len)?;
    Ok(Head { tag, len })
}
