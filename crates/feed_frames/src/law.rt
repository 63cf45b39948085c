//! That each list of bytes is judged, as the promise of a function that does nothing.

ghost use Rattle.feed_frames.specs.FirstFault.{FeedOrFault, NoFeedHasFault};

/// Bytes begin with a whole feed or have a first fault. So bytes that are no feed have one.
pub fn feed_or_fault()
    ensures either { FeedOrFault }
    ensures fault { NoFeedHasFault }
{}
