//! Laws of the generated feed.

ghost use Rattle.feed_gen.specs.Laws.{EachIsRead, IsWholeFeed, LastFrontier, LastScn, NoRedoFault};

/// The bytes are a whole feed of the generated deliveries, and nothing comes behind it.
pub fn whole_feed()
    ensures { IsWholeFeed }
{}

/// After each delivery the texts of the three threads are whole records, and their merged log is
/// sound.
pub fn each_is_read()
    ensures { EachIsRead }
{}

/// No delivery has a redo fault.
pub fn no_redo_fault()
    ensures { NoRedoFault }
{}

/// There are 63 records and two for each transfer, which have the SCNs from 1 on.
pub fn last_scn()
    ensures { LastScn }
{}

/// The last of these SCNs is the frontier after the last delivery.
pub fn last_frontier()
    ensures { LastFrontier }
{}
