//! The laws of the core, each the promise of a function that does nothing.

ghost use Rattle.standby_core.specs.Laws.{FlushBeforePublish, FlushEnds};

/// What committed up to an SCN is marked before the SCN is published, and gone from the areas.
pub fn flush_before_publish()
    ensures { FlushBeforePublish }
{}

/// The coordinator alone ends a flush that has begun, in so many events, none of which takes memory.
pub fn flush_ends()
    ensures { FlushEnds }
{}
