//! The laws of the turn rule, each the promise of a function that does nothing.

ghost use Rattle.turn_rules.specs.Laws.{ActsLowerMeasure, DeliveriesKeepPromises, DeliveriesTellOn, LinesAreLegal, NobodyWaits, PickedEventsAreReady, RoundsAreRuns, RoundsBegin, RoundsEnd, TurnsComeToAnEnd, TurnsKeepRounds, UnitsAreStated, UseIsMet};

/// An event that the rule picks is never answered NotReady.
pub fn picked_events_are_ready()
    ensures { PickedEventsAreReady }
{}

/// What holds of a round holds as it begins.
pub fn rounds_begin()
    ensures { RoundsBegin }
{}

/// What holds of a round holds after each turn.
pub fn turns_keep_rounds()
    ensures { TurnsKeepRounds }
{}

/// Each act makes the measure fall, and a rest leaves it.
pub fn acts_lower_measure()
    ensures { ActsLowerMeasure }
{}

/// Where all actors rest the round is over.
pub fn nobody_waits()
    ensures { NobodyWaits }
{}

/// Each turn makes the bound of the turns that are left fall.
pub fn turns_come_to_an_end()
    ensures { TurnsComeToAnEnd }
{}

/// A round takes no more turns than the bound says as it begins.
pub fn rounds_end()
    ensures { RoundsEnd }
{}

/// The turns of a round are a run of the core, and no event of it is answered NotReady.
pub fn rounds_are_runs()
    ensures { RoundsAreRuns }
{}

/// The lines of a delivery are legal.
pub fn lines_are_legal()
    ensures { LinesAreLegal }
{}

/// They meet column use, over what the units told as the delivery began.
pub fn use_is_met()
    ensures { UseIsMet }
{}

/// The units after a delivery are those that column use states.
pub fn units_are_stated()
    ensures { UnitsAreStated }
{}

/// A delivery keeps all that it promises.
pub fn deliveries_keep_promises()
    ensures { DeliveriesKeepPromises }
{}

/// What the lines of earlier deliveries tell of the units is so from delivery to delivery.
pub fn deliveries_tell_on()
    ensures { DeliveriesTellOn }
{}
