ghost use Rattle.std.specs.Prelude.{◌≡◌, ◌≤◌, [], ◌∷◌, ◌++◌, IfOk, OnOk, OnErr};
ghost use Rattle.std.specs.List.{AllByRecursion};
ghost use Rattle.adg_base.specs.declared.node.Node.{Node as End};
ghost use Rattle.scn_queue.specs.Queue.{upto, above, entered};
ghost use Rattle.commit_table.specs.Order.{IsInOrder, IsBehindAll};

use adg_base::memory::Memory;
use adg_base::node::{Node, NodeList};
use adg_base::number::Scn;
use scn_queue::queue::ScnQueue;
use std::alloc::Global;
use std::marker::Model;

/// The part of the commit table that one worker keeps.
#[derive(Debug, Drop)]
pub struct Partition {
    nodes: ScnQueue<Node>,
}

impl Model for Partition {
    ghost use Rattle.std.specs.Prelude.{List};
    ghost use Rattle.adg_base.specs.declared.node.Node.{Node as End};
    ghost use Rattle.commit_table.specs.Order.{IsInOrder};

    ghost Value = { List End };

    ghost view = { λ p. p.nodes };

    ghost invariant = { λ p. IsInOrder p.nodes };
}

impl Partition {
    /// The empty partition.
    pub fn new(alloc: Global) -> Partition
        ensures { result ≡ [] }
    {
        Partition {
            nodes: ScnQueue::new(alloc),
        }
    }

    /// Enters the end of a transaction, which stands in the log behind all that are held. In a log no
    /// SCN is below one before it: then it comes last.
    pub fn enter(&mut self, node: Node) -> Result<(), Memory>
        requires { IsBehindAll node self.old }
        ensures ok { OnOk result (self.new ≡ entered (λ (n : End). n.scn) node self.old) }
        ensures last { OnOk result (AllByRecursion (λ (n : End). n.scn ≤ node.scn) self.old → self.new ≡ self.old ++ node ∷ []) }
        ensures err { OnErr result (self.new ≡ self.old) }
    {
        self.nodes.enter(node)
    }

    /// Copies the nodes with SCNs up to one.
    pub fn upto(&self, through: Scn) -> Result<NodeList, Memory>
        ensures found { IfOk result (λ list. list ≡ upto (λ (n : End). n.scn) through self.now) }
        ensures order { IfOk result IsInOrder }
    {
        self.nodes.upto(through)
    }

    /// Takes the nodes with SCNs up to one out.
    pub fn cut(&mut self, through: Scn) -> Result<NodeList, Memory>
        ensures found { IfOk result (λ list. list ≡ upto (λ (n : End). n.scn) through self.old) }
        ensures order { IfOk result IsInOrder }
        ensures left { OnOk result (self.new ≡ above (λ (n : End). n.scn) through self.old) }
        ensures err { OnErr result (self.new ≡ self.old) }
    {
        self.nodes.cut(through)
    }

    /// Drops the nodes with SCNs up to one.
    pub fn drop_through(&mut self, through: Scn)
        ensures { self.new ≡ above (λ (n : End). n.scn) through self.old }
    {
        self.nodes.drop_through(through);
    }
}
