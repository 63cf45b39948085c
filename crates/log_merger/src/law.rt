//! Laws of the merged log, each the promise of a function that does nothing.

ghost use Rattle.log_merger.specs.Law.{GoodIsNotBad, OrderIsOne};

/// There is one strict order of entries: a list in it is known by its members alone.
pub fn order_is_one()
    ensures { OrderIsOne }
{}

/// A drain refuses only where it cannot give: no text has both its records and a bad record.
pub fn good_is_not_bad()
    ensures { GoodIsNotBad }
{}
