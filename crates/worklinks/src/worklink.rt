ghost use Rattle.std.specs.Prelude.{◌≡◌, ◌≤◌, length, IfOk};
ghost use Rattle.worklinks.specs.Chopped.{IsReady};

use crate::collected::CollectedList;
use adg_base::list::{Duplicate, List};
use adg_base::memory::Memory;
use adg_base::node::{Item, ItemList};
use std::alloc::Global;

/// The most items of a worklink.
pub const WORKLINK_ITEMS: usize = 64;

/// What one actor of a flush takes: items, of which `chop` gives 1 to 64, and what was collected for
/// their transactions.
#[derive(Debug, Drop)]
pub struct Worklink {
    pub items: ItemList,
    pub collected: CollectedList,
}

/// A list of worklinks.
pub type WorklinkList = List<Worklink>;

impl Worklink {
    /// A worklink of these items, with the memory for a list from the area of each worker for each.
    pub fn ready(alloc: Global, items: &[Item], workers: u8) -> Result<Worklink, Memory>
        requires { length items.now ≤ 64 }
        ensures items { IfOk result (λ link. link.items ≡ items.now) }
        ensures ready { IfOk result (λ link. IsReady workers link) }
    {
        let collected = CollectedList::with_room(alloc, items.len() * usize::from(workers))?;
        let items = List::from_slice(alloc, items)?;
        Ok(Worklink { items, collected })
    }
}

impl Duplicate for Worklink {
    fn copy(&self, alloc: Global) -> Result<Worklink, Memory> {
        let items = self.items.copy(alloc)?;
        let collected = self.collected.copy(alloc)?;
        Ok(Worklink { items, collected })
    }
}
