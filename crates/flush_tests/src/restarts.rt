use adg_base::log::LogEntry;
use adg_base::number::{Pos, Scn};
use adg_base::vector::Vector;
use restart_rules::{complete, rewind};
use std::alloc::Global;
use std::test::Fail;

/// The SCNs of some entries, an SCN, and the place of the first entry above it.
static CASES: [(&str, &[u64], u64, usize); 8] = [
    ("no entries", &[], 5, 0),
    ("below all", &[10, 20, 30], 9, 0),
    ("at the first", &[10, 20, 30], 10, 1),
    ("between two", &[10, 20, 30], 25, 2),
    ("behind equal ones", &[10, 20, 20, 20, 30], 20, 4),
    ("before equal ones", &[10, 20, 20, 20, 30], 19, 1),
    ("at the last", &[10, 20, 30], 30, 3),
    ("above all", &[10, 20, 30], 99, 3),
];

fn entries(alloc: Global, scns: &[u64]) -> Result<Vec<LogEntry>, Fail> {
    let mut entries = Vec::new(alloc);
    for (pos, scn) in scns.iter().enumerate() {
        entries.push(LogEntry {
            pos: Pos::new(pos as u64),
            scn: Scn::new(*scn).ok_or("an SCN")?,
            thread: 1,
            number: 1,
            index: 1,
            vector: Vector::EndThread,
        })?;
    }
    Ok(entries)
}

#[test]
fn goes_back_to_the_first_above(rt: HostRuntime) -> Result<(), Fail> {
    let alloc = rt.alloc();
    for (name, scns, q, place) in &CASES {
        let q = Scn::new(*q).ok_or("an SCN")?;
        assert_eq!(rt; rewind(&entries(alloc, scns)?, q), *place, "{name}");
    }
    assert!(rt; complete(true) && !complete(false));
    Ok(())
}
