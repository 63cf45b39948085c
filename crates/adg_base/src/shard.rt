ghost use Rattle.std.specs.Prelude.{◌≡◌, ◌<◌, ◌%◌, IfSome};
ghost use Rattle.adg_base.specs.Shard.{shard_of_block, shard_of_txn, shard_of_object, shard_of_unit, shard_of_vector};

use crate::number::{Obj, Txn};
use crate::vector::Vector;

/// How many shards the blocks, transactions and objects are spread over.
pub const SHARDS: u8 = 64;

/// How many shards the column units are spread over.
pub const UNIT_SHARDS: u8 = 32;

/// The shard of a block.
pub fn block_shard(obj: Obj, block: u16) -> u8
    ensures value { result ≡ shard_of_block obj block }
    ensures range { result < 64 }
{
    ((u32::from(obj.get()) + u32::from(block)) % u32::from(SHARDS)) as u8
}

/// The shard of a transaction.
pub fn txn_shard(txn: Txn) -> u8
    ensures value { result ≡ shard_of_txn txn }
    ensures range { result < 64 }
{
    (txn.get() % u64::from(SHARDS)) as u8
}

/// The shard of an object's own entries.
pub fn object_shard(obj: Obj) -> u8
    ensures value { result ≡ shard_of_object obj }
    ensures range { result < 64 }
{
    (obj.get() % u16::from(SHARDS)) as u8
}

/// The unit shard of an extent.
pub fn unit_shard(obj: Obj, extent: u16) -> u8
    ensures value { result ≡ shard_of_unit obj extent }
    ensures range { result < 32 }
{
    ((u32::from(obj.get()) + u32::from(extent)) % u32::from(UNIT_SHARDS)) as u8
}

/// The worker, of so many, whose share a shard belongs to.
pub fn worker_of(shard: u8, workers: u8) -> u8
    requires { 0 < workers }
    ensures value { result ≡ shard % workers }
    ensures range { result < workers }
{
    shard % workers
}

/// The shard of a vector: None exactly at the end of a thread.
pub fn shard_of(vector: &Vector) -> Option<u8>
    ensures value { result ≡ shard_of_vector vector.now }
    ensures range { IfSome result (λ shard. shard < 64) }
{
    match vector {
        Vector::Put { obj, block, .. }
        | Vector::Delete { obj, block, .. }
        | Vector::Undo { obj, block, .. } => Some(block_shard(*obj, *block)),
        Vector::Begin { txn } | Vector::Commit { txn, .. } | Vector::Abort { txn } => {
            Some(txn_shard(*txn))
        }
        Vector::Create { obj, .. }
        | Vector::DropObject { obj }
        | Vector::AddColumn { obj, .. }
        | Vector::NoInMemory { obj } => Some(object_shard(*obj)),
        Vector::EndThread => None,
    }
}
