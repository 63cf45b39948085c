//! The laws of the row store, each the promise of a function that does nothing.

ghost use Rattle.row_blocks.specs.Law.{PickedIsCommitted};
ghost use Rattle.row_blocks.specs.Shards.{PassedGiveRows, PickGivesRow, ShardsGiveRows};

/// The picked version is the committed row: in every sound log, at every address and SCN.
pub fn picked_is_committed()
    ensures { PickedIsCommitted }
{}

/// With the versions of an address from one shard, and the end of each of their transactions from
/// another, the pick gives the committed row at each SCN from the floor on up to which both have
/// applied their entries.
pub fn pick_gives_row()
    ensures { PickGivesRow }
{}

/// So the 64 shards give each committed row.
pub fn shards_give_rows()
    ensures { ShardsGiveRows }
{}

/// Once the 64 shards have passed a log, they give its committed rows at each SCN from the floor on.
pub fn passed_give_rows()
    ensures { PassedGiveRows }
{}
