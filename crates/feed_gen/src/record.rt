//! The records of a transfer.

ghost use Rattle.std.specs.Prelude.{◌≡◌, ◌<◌, ◌≤◌, IfOk, OnOk, ◌++◌, ◌∷◌, []};
ghost use Rattle.feed_gen.specs.Transfers.{first_record, second_vectors, ending};
ghost use Rattle.feed_gen.specs.Tables.{writing, thread_of};
ghost use Rattle.feed_gen.specs.Bounds.{IsTransfer, IsSecond};

use crate::second::Second;
use crate::table::{put, thread_of, undo};
use crate::transfer::Transfer;
use crate::writing::Writing;
use adg_base::memory::Memory;
use adg_base::number::Txn;
use adg_base::vector::{Vector, VectorList};
use std::alloc::Global;

/// The first record of a transfer, which leaves the row that gives with a balance.
pub fn first_record(
    alloc: Global,
    txn: Txn,
    transfer: &Transfer,
    debited: i64,
) -> Result<Writing, Memory>
    requires { IsTransfer transfer.now }
    ensures { IfOk result (λ w. w ≡ first_record txn transfer.now debited) }
{
    let mut vectors = VectorList::new(alloc);
    vectors.push(Vector::Begin { txn })?;
    vectors.push(put(alloc, txn, transfer.table, transfer.from, debited)?)?;
    Ok(Writing {
        thread: thread_of(transfer.table),
        vectors,
    })
}

/// Adds the end of a transfer: its commit, or what takes it back and aborts it.
fn push_ending(vectors: &mut VectorList, second: &Second) -> Result<(), Memory>
    requires { IsSecond second.now }
    ensures { OnOk result (vectors.new ≡ vectors.old ++ ending second.now) }
{
    let txn = second.txn;
    if second.aborts {
        vectors.push(undo(txn, second.table, second.to))?;
        vectors.push(undo(txn, second.table, second.from))?;
        vectors.push(Vector::Abort { txn })
    } else {
        vectors.push(Vector::Commit { txn, flag: true })
    }
}

/// The second record of a transfer.
pub fn second_record(alloc: Global, thread: u8, second: &Second) -> Result<Writing, Memory>
    requires { IsSecond second.now }
    ensures { IfOk result (λ w. w ≡ writing thread (second_vectors second.now)) }
{
    let mut vectors = VectorList::new(alloc);
    vectors.push(put(alloc, second.txn, second.table, second.to, second.balance)?)?;
    push_ending(&mut vectors, second)?;
    Ok(Writing { thread, vectors })
}
