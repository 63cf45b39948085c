ghost use Rattle.std.specs.Prelude.{◌≡◌, ◌++◌, IfOk, map};
ghost use Rattle.adg_model.specs.Mined.{node_item, ddl_item};
ghost use Rattle.worklinks.specs.Chopped.{AreChopped, flush_items};

use crate::worklink::{WORKLINK_ITEMS, Worklink, WorklinkList};
use adg_base::list::List;
use adg_base::memory::Memory;
use adg_base::node::{DdlNode, Item, Node, NodeKind};
use std::alloc::Global;

/// The worklinks of a flush for as many workers: first the items of the ends of transactions, then
/// those of the changes of definitions, both in the order of the lists.
pub fn chop(
    alloc: Global,
    nodes: &[Node],
    ddl: &[DdlNode],
    workers: u8,
) -> Result<WorklinkList, Memory>
    ensures { IfOk result (λ links. AreChopped nodes.now ddl.now workers links) }
{
    let items = items_of(alloc, nodes, ddl)?;
    let mut links = List::new(alloc);
    let mut rest = items.as_slice();
    while !rest.is_empty() {
        let (part, later) = rest.split_at(rest.len().min(WORKLINK_ITEMS));
        links.push(Worklink::ready(alloc, part, workers)?)?;
        rest = later;
    }
    Ok(links)
}

/// The items of all nodes, in order.
fn items_of(alloc: Global, nodes: &[Node], ddl: &[DdlNode]) -> Result<Vec<Item>, Memory>
    ensures { IfOk result (λ items. items.items ≡ flush_items nodes.now ddl.now) }
{
    let ends = nodes.iter().map(item_of_end);
    let drops = ddl.iter().map(item_of_ddl);
    Ok(ends.chain(drops).collect(alloc)?)
}

/// What has to be done for the end of a transaction.
fn item_of_end(node: &Node) -> Item
    ensures { result ≡ node_item node.now }
{
    let txn = node.txn;
    match node.kind {
        NodeKind::Committed { flag: true } if node.complete => Item::Change { txn },
        NodeKind::Committed { flag: true } => Item::Coarse { txn },
        NodeKind::Committed { flag: false } | NodeKind::Aborted => Item::Forget { txn },
    }
}

/// What has to be done for a change of a definition.
fn item_of_ddl(node: &DdlNode) -> Item
    ensures { result ≡ ddl_item node.now }
{
    Item::DropObject { obj: node.obj }
}
