use adg_base::node::ItemList;
use worklinks::CollectedList;

/// Where a worklink of a flush stands.
#[derive(Clone, Copy, Debug)]
pub enum Stage {
    /// Nobody has it.
    Unclaimed,
    /// An actor has it. The cursor goes along the areas and then along the unit shards.
    Claimed { actor: u8, cursor: usize },
    /// All that it asks for is marked.
    Finished,
}

/// A worklink with its stage. Of what it collects it keeps the addresses of the transactions whose
/// changes are to be marked, in each list by the unit shard of the address.
#[derive(Debug, Drop)]
pub struct Link {
    pub(crate) items: ItemList,
    pub(crate) collected: CollectedList,
    pub(crate) stage: Stage,
}
