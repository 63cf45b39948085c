//! Slots for entries of which a few are looked up often.

ghost use Rattle.std.specs.Prelude.{◌≡◌, ℕ, None, IfOk};
ghost use Rattle.std.specs.List.{slice_index_or};

use adg_base::memory::Memory;
use std::alloc::Global;

/// How many slots there are.
pub const SLOTS: usize = 128;

/// Slots of which none holds an entry.
pub fn vacant<T: Drop>(alloc: Global) -> Result<Vec<Option<T>>, Memory>
    ensures { IfOk result (λ slots. (k : ℕ) → slice_index_or slots.items k None ≡ None) }
{
    let mut slots = Vec::with_capacity(alloc, SLOTS)?;
    for _ in 0..SLOTS {
        slots.push(None)?;
    }
    Ok(slots)
}
