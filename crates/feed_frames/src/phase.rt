use crate::fault::FeedFault;

/// Where a reader stands in its feed.
#[derive(Clone, Copy, Debug, PartialEq, Eq)]
pub enum Phase {
    /// Before the header.
    Fresh,
    /// Before a delivery or the end.
    Open,
    /// After the end.
    Ended,
    /// After a fault, which it repeats.
    Failed(FeedFault),
}
