//! The first fault of bytes that are no whole feed.

ghost use Rattle.std.specs.Prelude.{◌≤◌, length, IfOk};

use adg_base::memory::Memory;
use adg_io::memory_source::MemSource;
use feed_frames::FeedKind;
use feed_frames::fault::FeedFault;
use feed_frames::reader::{FeedReader, Step};
use std::alloc::Global;

/// More than a feed has deliveries.
const MANY_DELIVERIES: u32 = 65_537;

/// How many bytes one read takes.
const PIECE_LEN: usize = 65_536;

/// How many bytes in front are frames of a feed, and the fault of those behind them.
#[derive(Debug, Drop)]
pub struct Extent {
    pub len: usize,
    pub fault: Option<FeedFault>,
}

/// As much of a feed as is whole frames.
pub fn extent_of(alloc: Global, feed: &[u8]) -> Result<Extent, Memory>
    ensures { IfOk result (λ extent. extent.len ≤ length feed.now) }
{
    let copied = Vec::from_slice(alloc, feed)?;
    let mut source = MemSource::new(copied, PIECE_LEN, Vec::new(alloc));
    let mut reader = FeedReader::new(alloc);
    for _ in 0..MANY_DELIVERIES {
        match reader.next_delivery(&mut source) {
            Ok(Step::Delivery(_)) => {}
            Ok(Step::End) => break,
            Err(fault) => return refused(fault, feed.len()),
        }
    }
    let len = (reader.taken() as usize).min(feed.len());
    Ok(Extent { len, fault: None })
}

/// The frames before a fault of so many bytes.
fn refused(fault: FeedFault, len: usize) -> Result<Extent, Memory>
    ensures { IfOk result (λ extent. extent.len ≤ len) }
{
    if fault.kind == FeedKind::Memory {
        return Err(Memory);
    }
    let len = (fault.byte as usize).min(len);
    Ok(Extent {
        len,
        fault: Some(fault),
    })
}
