//! The law of the scan, the promise of a function that does nothing.

ghost use Rattle.hybrid_scan.specs.Covers.{LooksGiveRows};

/// What is seen of an extent by a look that covers an SCN are the rows that are committed at it.
pub fn looks_give_rows()
    ensures { LooksGiveRows }
{}
