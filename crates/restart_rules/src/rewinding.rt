ghost use Rattle.std.specs.Prelude.{◌≡◌};
ghost use Rattle.std.specs.List.Sorted.{IsNonDecreasingBy};
ghost use Rattle.restart_rules.specs.Rewind.{first_above};

use adg_base::log::LogEntry;
use adg_base::number::Scn;

/// The place of the first entry with an SCN above `q`, the length where there is none, in entries
/// whose SCNs do not fall. It looks at as many entries as the length has binary digits.
pub fn rewind(entries: &[LogEntry], q: Scn) -> usize
    ensures { IsNonDecreasingBy (λ e. e.scn) entries.now → result ≡ first_above q entries.now }
{
    entries.partition_point(|entry| entry.scn <= q)
}

/// Whether all that a transaction changed was noted: that is so exactly where its beginning was mined
/// since the last restart.
pub fn complete(begin_mined: bool) -> bool
    ensures { result ≡ begin_mined }
{
    begin_mined
}
