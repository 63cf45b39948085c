ghost use Rattle.std.specs.Prelude.{◌≡◌, ◌<◌, List};
ghost use Rattle.std.specs.List.{Contains};
ghost use Rattle.adg_base.specs.declared.log.LogEntry.{LogEntry as Entry};
ghost use Rattle.adg_base.specs.Address.{place};
ghost use Rattle.adg_model.specs.Mined.{mined_of, mined_at};
ghost use Rattle.dictionary.specs.Standing.{StandsFor};

use adg_base::address::Addr;
use adg_base::log::LogEntry;
use adg_base::number::{Obj, Scn, Txn};
use adg_base::vector::Vector;
use adg_model::mined::Mined;
use dictionary::Dictionary;

/// What an entry notes, where the dictionary has accepted it. The definition that decides is that at
/// the entry's SCN, by all entries that the dictionary has: also by later ones with the same SCN.
pub fn mine(entry: &LogEntry, dictionary: &Dictionary) -> Option<Mined>
    ensures { (log : List Entry) → StandsFor dictionary.now log → Contains log entry.now → result ≡ mined_of log entry.now }
{
    let scn = entry.scn;
    match &entry.vector {
        Vector::Begin { txn } => Some(Mined::Begin { txn: *txn }),
        Vector::Put {
            txn,
            obj,
            block,
            slot,
            row: _,
        }
        | Vector::Delete {
            txn,
            obj,
            block,
            slot,
        }
        | Vector::Undo {
            txn,
            obj,
            block,
            slot,
        } => touched(dictionary, scn, *txn, *obj, *block, *slot),
        Vector::Commit { txn, flag } => Some(Mined::End {
            txn: *txn,
            flag: *flag,
            committed: true,
        }),
        Vector::Abort { txn } => Some(Mined::End {
            txn: *txn,
            flag: false,
            committed: false,
        }),
        Vector::DropObject { obj }
        | Vector::AddColumn { obj, kind: _ }
        | Vector::NoInMemory { obj } => Some(Mined::Ddl { obj: *obj }),
        Vector::Create { .. } | Vector::EndThread => None,
    }
}

/// A row is touched: that is noted where its object is in-memory at the SCN.
fn touched(
    dictionary: &Dictionary,
    scn: Scn,
    txn: Txn,
    obj: Obj,
    block: u16,
    slot: u8,
) -> Option<Mined>
    ensures { (log : List Entry) → StandsFor dictionary.now log → slot < 64 → result ≡ mined_at log scn txn (place obj block slot) }
{
    if !dictionary.at(obj, scn)?.flag {
        return None;
    }
    let addr = Addr::new(obj, block, slot)?;
    Some(Mined::Note { txn, addr })
}
