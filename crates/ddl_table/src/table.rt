ghost use Rattle.std.specs.Prelude.{◌≡◌, [], IfOk, OnOk, OnErr};
ghost use Rattle.adg_base.specs.declared.node.DdlNode.{DdlNode as Change};
ghost use Rattle.scn_queue.specs.Queue.{upto, above, entered, IsInScnOrder};

use adg_base::memory::Memory;
use adg_base::node::{DdlList, DdlNode};
use adg_base::number::{Obj, Scn};
use scn_queue::queue::ScnQueue;
use std::alloc::Global;
use std::marker::Model;

/// Changes of definitions sorted by SCN; an equal SCN comes behind those that were there.
#[derive(Debug, Drop)]
pub struct DdlTable {
    nodes: ScnQueue<DdlNode>,
}

impl Model for DdlTable {
    ghost use Rattle.std.specs.Prelude.{List};
    ghost use Rattle.adg_base.specs.declared.node.DdlNode.{DdlNode as Change};

    ghost Value = { List Change };

    ghost view = { λ t. t.nodes };
}

impl DdlTable {
    /// The empty table.
    pub fn new(alloc: Global) -> DdlTable
        ensures { result ≡ [] }
    {
        DdlTable {
            nodes: ScnQueue::new(alloc),
        }
    }

    /// Enters a change of an object's definition, at any SCN.
    pub fn enter(&mut self, scn: Scn, obj: Obj) -> Result<(), Memory>
        ensures ok { OnOk result (self.new ≡ entered (λ (n : Change). n.scn) (record { scn = scn; obj = obj }) self.old) }
        ensures err { OnErr result (self.new ≡ self.old) }
    {
        self.nodes.enter(DdlNode { scn, obj })
    }

    /// Copies the nodes with SCNs up to one.
    pub fn upto(&self, through: Scn) -> Result<DdlList, Memory>
        ensures found { IfOk result (λ list. list ≡ upto (λ (n : Change). n.scn) through self.now) }
        ensures order { IfOk result (IsInScnOrder (λ (n : Change). n.scn)) }
    {
        self.nodes.upto(through)
    }

    /// Takes the nodes with SCNs up to one out.
    pub fn cut(&mut self, through: Scn) -> Result<DdlList, Memory>
        ensures found { IfOk result (λ list. list ≡ upto (λ (n : Change). n.scn) through self.old) }
        ensures order { IfOk result (IsInScnOrder (λ (n : Change). n.scn)) }
        ensures left { OnOk result (self.new ≡ above (λ (n : Change). n.scn) through self.old) }
        ensures err { OnErr result (self.new ≡ self.old) }
    {
        self.nodes.cut(through)
    }

    /// Drops the nodes with SCNs up to one.
    pub fn drop_through(&mut self, through: Scn)
        ensures { self.new ≡ above (λ (n : Change). n.scn) through self.old }
    {
        self.nodes.drop_through(through);
    }
}
