ghost use Rattle.std.specs.Prelude.{◌≡◌, ℕ, ◌/◌, ◌==◌, [], None, Some, if◌then◌else◌, option_map, option_copied, IfSome, IsSome, OnOk, OnErr, MatchBool};
ghost use Rattle.adg_base.specs.Shard.{shard_of_unit};
ghost use Rattle.column_codec.specs.Extent.{AreColumns};
ghost use Rattle.column_units.specs.Unit.{IsOf, IsNew, marked_whole};
ghost use Rattle.column_units.specs.Shard.{KeepsOthers, KeepsAll, MakesEach, MarksIn, is_awaited, installed, unit_at};

use crate::marks::BLOCKS;
use crate::unit::Unit;
use adg_base::address::Addr;
use adg_base::memory::Memory;
use adg_base::number::{Obj, Scn};
use column_codec::columns::Columns;
use std::alloc::Global;
use std::collections::HashMap;
use std::marker::Model;

/// The units of the extents that belong to one of the 32 shards. Contracts see the unit at each object
/// and extent.
#[derive(Drop)]
pub struct UnitShard {
    number: u8,
    units: HashMap<(u16, u16), Unit>,
}

impl Model for UnitShard {
    ghost use Rattle.column_units.specs.Shard.{Units, AllBelong};

    ghost Value = { Units };

    ghost view = { λ s. record { number = s.number; entries = s.units.entries } };

    ghost invariant = { λ s. AllBelong (record { number = s.number; entries = s.units.entries }) };
}

impl UnitShard {
    /// The shard of this number without units.
    pub fn new(alloc: Global, number: u8) -> UnitShard
        ensures number { result.number ≡ number }
        ensures empty { (obj extent : ℕ) → unit_at result obj extent ≡ None }
    {
        UnitShard {
            number,
            units: HashMap::new(alloc),
        }
    }

    /// The number of the shard.
    pub fn number(&self) -> u8
        ensures { result ≡ self.now.number }
    {
        self.number
    }

    /// Whether it has no unit.
    pub fn is_empty(&self) -> bool
        ensures { MatchBool result (self.now.entries ≡ []) (self.now.entries ≡ [] → ⊥) }
    {
        self.units.is_empty()
    }

    /// Puts a unit without columns in the place of any that stands there.
    pub fn register(
        &mut self,
        obj: Obj,
        extent: u16,
        snapshot: Scn,
        ticket: u64,
    ) -> Result<(), Memory>
        requires { shard_of_unit obj extent ≡ self.old.number }
        ensures unit { OnOk result (IfSome (unit_at self.new obj extent) (IsNew obj extent snapshot ticket)) }
        ensures stands { OnOk result (IsSome (unit_at self.new obj extent)) }
        ensures others { OnOk result (KeepsOthers obj extent self.old self.new) }
        ensures err { OnErr result (KeepsAll self.old self.new) }
    {
        let unit = Unit::new(obj, extent, snapshot, ticket);
        self.units.insert((obj.get(), extent), unit)?;
        Ok(())
    }

    /// Gives a unit its columns, true exactly where it is being loaded with this ticket. Else the columns
    /// are dropped.
    pub fn install(&mut self, obj: Obj, extent: u16, ticket: u64, columns: Columns) -> bool
        requires { AreColumns obj extent columns }
        ensures answer { result ≡ is_awaited ticket (unit_at self.old obj extent) }
        ensures unit { unit_at self.new obj extent ≡ installed ticket columns (unit_at self.old obj extent) }
        ensures others { KeepsOthers obj extent self.old self.new }
    {
        match self.units.get_mut(&(obj.get(), extent)) {
            Some(unit) => unit.install(ticket, columns),
            None => false,
        }
    }

    /// Marks an address where its unit stands.
    pub fn mark(&mut self, addr: Addr)
        ensures unit { MarksIn addr (unit_at self.old addr.obj (addr.block / 16)) (unit_at self.new addr.obj (addr.block / 16)) }
        ensures others { KeepsOthers addr.obj (addr.block / 16) self.old self.new }
    {
        let extent = addr.block() / BLOCKS as u16;
        if let Some(unit) = self.units.get_mut(&(addr.obj().get(), extent)) {
            unit.mark(addr);
        }
    }

    /// Marks each unit wholly.
    pub fn mark_all(&mut self)
        ensures { MakesEach (λ _ unit. option_map marked_whole unit) self.old self.new }
    {
        self.units.retain(|_, unit| {
            unit.all = true;
            true
        });
    }

    /// Drops the units of an object.
    pub fn drop_object(&mut self, obj: Obj)
        ensures { MakesEach (λ o unit. if o == obj then None else unit) self.old self.new }
    {
        let object = obj.get();
        self.units.retain(|key, _| key.0 != object);
    }

    /// The unit of an object and an extent, None exactly where none stands.
    pub fn find(&self, obj: Obj, extent: u16) -> Option<&Unit>
        ensures unit { option_copied result ≡ unit_at self.now obj extent }
        ensures fits { IfSome result (λ unit. IsOf obj extent unit.now) }
    {
        self.units.get(&(obj.get(), extent))
    }
}
