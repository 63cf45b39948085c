//! Laws of the definitions in `specs/`, each the promise of a function that does nothing: evidence
//! that the definitions say what they mean.

ghost use Rattle.adg_model.specs.Laws.{CommittedOnce, LogContinues, LogGrows, LogGrowsByDelivery, LogIsOrdered, NoPrefix, OneCommand, OneFeedFault, OneRedoFault, OneReply, RecordsAreDetermined, RowsStopAtScn, ScnsDoNotFall, UncommittedChangeNothing};

/// As threads get more records the merged log only grows, at SCNs above the frontier that was, and
/// the frontier does not fall.
pub fn log_grows()
    ensures { LogGrows }
{}

/// As more deliveries come the merged log only grows, in the same way.
pub fn log_grows_by_delivery()
    ensures { LogGrowsByDelivery }
{}

/// What deliveries add to a sound log continues it, from the frontier that was to the new one.
pub fn log_continues()
    ensures { LogContinues }
{}

/// Bytes have at most one first fault of a feed, and none where they begin with a whole one.
pub fn one_feed_fault()
    ensures { OneFeedFault }
{}

/// Deliveries have at most one redo fault.
pub fn one_redo_fault()
    ensures { OneRedoFault }
{}

/// A sound log commits a transaction at most once, so at one SCN at most.
pub fn committed_once()
    ensures { CommittedOnce }
{}

/// The records of threads are the only ones that their deliveries give.
pub fn records_are_determined()
    ensures { RecordsAreDetermined }
{}

/// The merged log has each vector of the records up to the frontier once, in strictly rising order.
pub fn log_is_ordered()
    ensures { LogIsOrdered }
{}

/// Rows and definitions at an SCN do not depend on entries above it.
pub fn rows_stop_at_scn()
    ensures { RowsStopAtScn }
{}

/// A transaction that has not committed at an SCN changes no row at it.
pub fn uncommitted_change_nothing()
    ensures { UncommittedChangeNothing }
{}

/// In a legal transcript no session reads an SCN that is lower than one that it read before, or that
/// is above the frontier.
pub fn scns_do_not_fall()
    ensures { ScnsDoNotFall }
{}

/// No spelling of a record is the beginning of another record's.
pub fn no_prefix()
    ensures { NoPrefix }
{}

/// A text spells at most one command.
pub fn one_command()
    ensures { OneCommand }
{}

/// A command text has at most one reply at an SCN, the split of its rows into units and blocks and the
/// units of a population aside.
pub fn one_reply()
    ensures { OneReply }
{}
