use adg_base::address::Addr;
use adg_base::number::Txn;

/// The address of a change beside the transaction that made it.
#[derive(Clone, Copy, Debug, PartialEq, Eq, Hash)]
pub struct Change {
    pub txn: Txn,
    pub addr: Addr,
}

/// What is kept of the changes of a transaction at an address: how many are pending, and the address
/// that the transaction changed first before this one. So its addresses make a chain.
#[derive(Clone, Copy, Debug)]
pub struct Pending {
    pub count: u64,
    pub earlier: Option<Addr>,
}

/// What is kept of a transaction that has not ended: whether it changed a row of an object that was
/// in-memory then, and the latest of the addresses that it changed, in the order of their first changes.
#[derive(Clone, Copy, Debug)]
pub struct Running {
    pub noted: bool,
    pub latest: Option<Addr>,
}
