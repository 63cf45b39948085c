ghost use Rattle.std.specs.Prelude.{◌≡◌, ◌<◌, ◌≤◌, ◌^◌, ◌↔◌, IsSome, IfSome};
ghost use Rattle.adg_base.specs.Address.{Place};

use crate::list::{Duplicate, List};
use crate::memory::Memory;
use crate::number::Obj;
use std::alloc::Global;
use std::marker::Model;

/// How many slots a block has.
pub const SLOTS: u8 = 64;

/// Where a row lies: its object, a block of the object and one of the 64 slots of the block. It is
/// printed as `tN.block.slot`.
#[derive(Clone, Copy, Debug, PartialEq, Eq, Hash)]
pub struct Addr {
    obj: Obj,
    block: u16,
    slot: u8,
}

/// A list of addresses.
pub type AddrList = List<Addr>;

impl Model for Addr {
    ghost use Rattle.std.specs.Prelude.{◌<◌};
    ghost use Rattle.adg_base.specs.Address.{Place};

    ghost Value = { Place };

    ghost view = { λ a. record { obj = a.obj; block = a.block; slot = a.slot } };

    ghost invariant = { λ a. a.slot < 64 };

    ghost inverse = { λ p. record { obj = p.obj; block = p.block; slot = p.slot } };
}

impl Addr {
    /// None at slot 64 or more.
    pub fn new(obj: Obj, block: u16, slot: u8) -> Option<Addr>
        ensures range { IsSome result ↔ (slot < 64) }
        ensures value { IfSome result (λ addr. addr ≡ record { obj = obj; block = block; slot = slot }) }
    {
        if slot < SLOTS {
            Some(Addr { obj, block, slot })
        } else {
            None
        }
    }

    /// The object.
    pub fn obj(self) -> Obj
        ensures { result ≡ self.obj }
    {
        self.obj
    }

    /// The block in the object.
    pub fn block(self) -> u16
        ensures { result ≡ self.block }
    {
        self.block
    }

    /// The slot in the block.
    pub fn slot(self) -> u8
        ensures value { result ≡ self.slot }
        ensures range { result < 64 }
    {
        self.slot
    }
}

impl Duplicate for Addr {
    fn copy(&self, _alloc: Global) -> Result<Addr, Memory> {
        Ok(*self)
    }
}
