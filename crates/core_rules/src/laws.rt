//! The laws of the core, each the promise of a function that does nothing.

ghost use Rattle.core_rules.specs.LogFacts.{LogHasFacts};
ghost use Rattle.core_rules.specs.Laws.{CutIsApplied, FinishedScansHaveMeaning, FlushBeforePublish, FlushEnds, GuardsAreExact, NextClosesShard, NextMinedIsOpen, ReceivingKeepsInvariant, ReceivingKeepsPrecision, RepliesHaveMeaning, RunsMeetInvariant, StepsKeepInvariant, StepsKeepPrecision, UnitsCover};

/// A sound log has the facts on which the invariant rests.
pub fn log_has_facts()
    ensures { LogHasFacts }
{}

/// Every state that a run reaches meets the invariant, and its marks are precise: for every list of
/// events and receivings, restarts included.
pub fn runs_meet_invariant()
    ensures { RunsMeetInvariant }
{}

/// Each step keeps the invariant.
pub fn steps_keep_invariant()
    ensures { StepsKeepInvariant }
{}

/// Each step from a state that meets the invariant keeps the precision of marks.
pub fn steps_keep_precision()
    ensures { StepsKeepPrecision }
{}

/// The receiving of redo that continues the log keeps the invariant.
pub fn receiving_keeps_invariant()
    ensures { ReceivingKeepsInvariant }
{}

/// It keeps the precision of marks too.
pub fn receiving_keeps_precision()
    ensures { ReceivingKeepsPrecision }
{}

/// Where the invariant holds, an event has an outcome exactly where its guard holds.
pub fn guards_are_exact()
    ensures { GuardsAreExact }
{}

/// What committed up to an SCN is marked before the SCN is published, and gone from the areas.
pub fn flush_before_publish()
    ensures { FlushBeforePublish }
{}

/// The coordinator alone ends a flush that has begun, in so many events.
pub fn flush_ends()
    ensures { FlushEnds }
{}

/// The rows of a finished scan are the committed rows of its object at its SCN, each counted once.
pub fn finished_scans_have_meaning()
    ensures { FinishedScansHaveMeaning }
{}

/// What an event replies is the reply to the text of the command.
pub fn replies_have_meaning()
    ensures { RepliesHaveMeaning }
{}

/// A unit that stands covers every SCN from its snapshot up to the QuerySCN.
pub fn units_cover()
    ensures { UnitsCover }
{}

/// Every entry up to what is cut is applied at its shard.
pub fn cut_is_applied()
    ensures { CutIsApplied }
{}

/// All earlier entries of the shard of a worker's next entry are applied there.
pub fn next_closes_shard()
    ensures { NextClosesShard }
{}

/// What is mined next is not cut, and the mark of its area tells whether its transaction began since
/// the last restart.
pub fn next_mined_is_open()
    ensures { NextMinedIsOpen }
{}
