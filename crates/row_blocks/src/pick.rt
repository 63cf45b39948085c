ghost use Rattle.std.specs.Prelude.{◌≡◌, ◌+◌, if◌then◌else◌, length, is_some, option_copied};
ghost use Rattle.row_blocks.specs.Pick.{counted, candidate, later, picked, row_of};
ghost use Rattle.row_blocks.specs.Best.{shown, commits_behind};

use crate::version::{End, Version};
use adg_base::number::{Pos, Scn};
use adg_base::row::Row;
use adg_base::steps::Steps;
use std::sync::ledger::Ledger;

/// The latest version that counts, so far: where its transaction committed, its own position and
/// its row. The numbers are plain, since they are copied with the reference.
#[derive(Clone, Copy)]
pub(crate) struct Best<'a> {
    commit: u64,
    pos: u64,
    row: &'a Option<Row>,
}

/// The position of an end that is a commit with an SCN up to `q`.
pub(crate) fn commit_upto(end: Option<End>, q: Scn) -> Option<u64>
    ensures { result ≡ counted q end }
{
    match end {
        Some(end) if end.committed && end.scn <= q => Some(end.pos.get()),
        _ => None,
    }
}

/// The later of the best so far and a version with the end of its transaction.
fn with_version<'a>(
    best: Option<Best<'a>>,
    version: &'a Version,
    end: Option<End>,
    q: Scn,
) -> Option<Best<'a>>
    ensures { shown result ≡ later (shown best.entry) (candidate version.now (counted q end)) }
{
    with_commit(best, version, commit_upto(end, q))
}

/// The later of the best so far and a version whose transaction committed there, where it counts.
pub(crate) fn with_commit<'a>(
    best: Option<Best<'a>>,
    version: &'a Version,
    commit: Option<u64>,
) -> Option<Best<'a>>
    ensures { shown result ≡ later (shown best.entry) (candidate version.now commit) }
{
    let Some(commit) = commit else {
        return best;
    };
    if version.struck {
        return best;
    }
    let pos = version.pos.get();
    match best {
        Some(earlier)
            if commit < earlier.commit || (commit == earlier.commit && pos < earlier.pos) => best,
        _ => Some(Best {
            commit,
            pos,
            row: &version.row,
        }),
    }
}

/// The row of the latest version that counts at `q`: the one whose transaction committed last, and
/// of that transaction the last that is not struck. `ends[i]` is the end of the transaction of
/// `versions[i]`. A step is counted where there is a row.
#[tactic(auto, using(crate::proofs::Picked::later_assoc, crate::proofs::Picked::later_none))]
pub fn pick<'a, L: Ledger>(
    versions: &'a [Version],
    ends: &[Option<End>],
    q: Scn,
    steps: &mut Steps<L>,
) -> Option<&'a Row>
    requires { length versions.now ≡ length ends.now }
    ensures row { option_copied result ≡ picked q versions.now ends.now }
    ensures cost { steps.new ≡ steps.old + (if is_some result then 1 else 0) }
{
    let mut best = None;
    for (version, end) in versions.iter().zip(ends) {
        best = with_version(best, version, *end, q);
    }
    told(best, steps)
}

/// Whether the transaction of the best, where there is one, committed behind a position.
pub(crate) fn is_behind(best: Option<Best<'_>>, pos: Pos) -> bool
    ensures { result ≡ commits_behind pos (shown best.entry) }
{
    match best {
        Some(best) => pos.get() < best.commit,
        None => false,
    }
}

/// The row of the best, where it has one, at the cost of a step.
pub(crate) fn told<'a, L: Ledger>(best: Option<Best<'a>>, steps: &mut Steps<L>) -> Option<&'a Row>
    ensures row { option_copied result ≡ row_of (shown best.entry) }
    ensures cost { steps.new ≡ steps.old + (if is_some result then 1 else 0) }
{
    let row = best?.row.as_ref()?;
    steps.tick();
    Some(row)
}
