ghost use Rattle.std.specs.Prelude.{◌≡◌, ◌<◌, ◌≤◌, ◌∷◌, [], ◌++◌, length, drop, IfSome, OnOk, OnErr};
ghost use Rattle.std.specs.List.{AllByRecursion};
ghost use Rattle.row_blocks.specs.Versions.{strike};
ghost use Rattle.row_blocks.specs.Block.{IsLatest, IsStruck};

use crate::version::Version;
use adg_base::memory::Memory;
use adg_base::number::Txn;
use std::marker::Model;

/// Versions, the earliest first. All from `end` on are struck, so that a transaction which takes back
/// one change after another looks at each of them once.
#[derive(Drop)]
pub(crate) struct Several {
    list: Vec<Version>,
    end: usize,
}

impl Model for Several {
    ghost use Rattle.std.specs.Prelude.{◌≤◌, List, length, drop};
    ghost use Rattle.std.specs.List.{AllByRecursion};
    ghost use Rattle.row_blocks.specs.declared.version.Version.{Version};
    ghost use Rattle.row_blocks.specs.Block.{IsStruck};

    ghost Value = { List Version };

    ghost view = { λ s. s.list.items };

    ghost invariant = { λ s. (s.end ≤ length s.list.items) × AllByRecursion IsStruck (drop s.end s.list.items) };
}

impl Several {
    /// Any versions.
    pub(crate) fn of(list: Vec<Version>) -> Several
        ensures { result ≡ list.items }
    {
        let end = list.len();
        Several { list, end }
    }

    pub(crate) fn as_slice(&self) -> &[Version]
        ensures { result.now ≡ self.now }
    {
        self.list.as_slice()
    }

    /// Adds a version.
    pub(crate) fn push(&mut self, version: Version) -> Result<(), Memory>
        ensures ok { OnOk result (self.new ≡ self.old ++ version ∷ []) }
        ensures err { OnErr result (self.new ≡ self.old) }
    {
        self.list.push(version)?;
        self.end = self.list.len();
        Ok(())
    }

    /// Strikes the latest version of a transaction that is not struck.
    pub(crate) fn strike(&mut self, txn: Txn)
        ensures { self.new ≡ strike txn self.old }
    {
        self.end = strike_before(&mut self.list, self.end, txn);
    }
}

/// Strikes the latest version of a transaction that is not struck, where all from `end` on are struck.
/// Gives from where on all are now.
fn strike_before(versions: &mut [Version], end: usize, txn: Txn) -> usize
    requires within { end ≤ length versions.old }
    requires struck { AllByRecursion IsStruck (drop end versions.old) }
    ensures versions { versions.new ≡ strike txn versions.old }
    ensures within { result ≤ length versions.new }
    ensures struck { AllByRecursion IsStruck (drop result versions.new) }
{
    let Some(index) = latest_before(versions, end, txn) else {
        return end;
    };
    versions[index].struck = true;
    if index + 1 == end { index } else { end }
}

/// Where the latest version of a transaction is that is not struck, where all from `end` on are struck.
#[tactic(auto, using(crate::proofs::Strikes::latest_before))]
fn latest_before(versions: &[Version], end: usize, txn: Txn) -> Option<usize>
    requires within { end ≤ length versions.now }
    requires struck { AllByRecursion IsStruck (drop end versions.now) }
    ensures latest { IsLatest txn versions.now result }
    ensures within { IfSome result (λ index. index < end) }
{
    latest(&versions[..end], txn)
}

/// Where the latest version of a transaction is that is not struck. It looks from the latest version
/// back.
fn latest(versions: &[Version], txn: Txn) -> Option<usize>
    ensures latest { IsLatest txn versions.now result }
    ensures within { IfSome result (λ index. index < length versions.now) }
{
    for index in (0..versions.len()).rev() {
        let version = &versions[index];
        if version.txn == txn && !version.struck {
            return Some(index);
        }
    }
    None
}
