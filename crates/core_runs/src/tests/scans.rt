use crate::tests::line::Line::{Flush, Once, Populate, Redo, Select, Times, Work};
use crate::tests::line::Run;
use crate::tests::play::play_all;
use crate::tests::words::Ask::{
    PopBegin, PopEnd, PopRead, PopRegister, PopRelease, Restart, ScanBegin, ScanEnd, ScanExtent,
};
use crate::tests::words::Want::{Moved, NotReady, Said};
use std::test::Fail;

const RUNS: [Run; 4] = [
    // The scan that began at 13 goes on after 14 was published, and says the rows of 13.
    Run {
        name: "an altered object",
        workers: 1,
        sessions: 1,
        lines: &[
            Redo("1@10: Create t1 x1 im (int) | @11: Begin 7; Put 7 t1.0.0 (1); Commit 7 +"),
            Work,
            Flush(1),
            Populate(1, 1, 1, "scn=11 populated units=1"),
            Redo("1@12: AddColumn t1 text | @13: Begin 8; Put 8 t1.0.1 (2, 'x'); Commit 8 +"),
            Work,
            Flush(1),
            Select(
                1,
                "SELECT * FROM t1",
                1,
                "scn=13 rows=2 col=0 row=2\n= 1|NULL\n= 2|'x'",
            ),
            Once(ScanBegin(1, "SELECT * FROM t1"), Moved),
            Redo("1@14: DropObject t1"),
            Work,
            Flush(1),
            Once(ScanExtent(1), Moved),
            Once(
                ScanEnd(1),
                Said("scn=13 rows=2 col=0 row=2\n= 1|NULL\n= 2|'x'"),
            ),
            Once(
                ScanBegin(1, "SELECT * FROM t1"),
                Said("scn=14 refused NoTable"),
            ),
        ],
    },
    // A scan takes an extent from its unit where this is Ready and not newer than the scan, and the marked
    // rows from the blocks; where there is no unit, or one that waits for its columns, all of it.
    Run {
        name: "none, loading, ready, some marked, newer",
        workers: 2,
        sessions: 2,
        lines: &[
            Redo(
                "1@10: Create t1 x2 im (int); Create t2 x1 im (int) | @11: Begin 7; Put 7 t1.0.0 (1); Put 7 t1.0.1 (2); Put 7 t1.16.0 (3); Commit 7 +",
            ),
            Work,
            Flush(1),
            Select(
                1,
                "SELECT * FROM t1",
                2,
                "scn=11 rows=3 col=0 row=3\n= 1\n= 2\n= 3",
            ),
            Once(PopBegin(2, 1), Moved),
            Times(2, PopRegister(2), Moved),
            Select(
                1,
                "SELECT * FROM t1",
                2,
                "scn=11 rows=3 col=0 row=3\n= 1\n= 2\n= 3",
            ),
            Once(PopRelease(2), Moved),
            Times(16, PopRead(2), Moved),
            Once(PopEnd(2), Moved),
            Select(
                1,
                "SELECT * FROM t1",
                2,
                "scn=11 rows=3 col=2 row=1\n= 1\n= 2\n= 3",
            ),
            Times(16, PopRead(2), Moved),
            Once(PopEnd(2), Said("scn=11 populated units=2")),
            Select(
                1,
                "SELECT * FROM t1",
                2,
                "scn=11 rows=3 col=3 row=0\n= 1\n= 2\n= 3",
            ),
            Redo("1@12: Begin 8; Put 8 t2.0.0 (5); Commit 8 +"),
            Work,
            Flush(1),
            Select(
                1,
                "SELECT * FROM t1",
                2,
                "scn=12 rows=3 col=3 row=0\n= 1\n= 2\n= 3",
            ),
            Redo(
                "1@13: Begin 9; Delete 9 t1.0.0; Put 9 t1.16.0 (6); Put 9 t1.16.1 (7); Commit 9 +",
            ),
            Work,
            Flush(1),
            Select(
                1,
                "SELECT * FROM t1",
                2,
                "scn=13 rows=3 col=1 row=2\n= 2\n= 6\n= 7",
            ),
            Once(ScanBegin(1, "SELECT * FROM t1"), Moved),
            Once(ScanExtent(1), Moved),
            Redo("1@14: Begin 10; Put 10 t1.0.1 (8); Put 10 t1.16.0 (9); Commit 10 +"),
            Work,
            Flush(1),
            Populate(2, 1, 2, "scn=14 populated units=2"),
            Once(ScanEnd(1), NotReady),
            Once(ScanExtent(1), Moved),
            Once(ScanExtent(1), NotReady),
            Once(ScanEnd(1), Said("scn=13 rows=3 col=1 row=2\n= 2\n= 6\n= 7")),
            Select(
                1,
                "SELECT * FROM t1",
                2,
                "scn=14 rows=3 col=3 row=0\n= 8\n= 9\n= 7",
            ),
        ],
    },
    // The commit of a transaction that began before the restart marks every unit wholly, also that of an
    // object which it did not change; a new population serves again.
    Run {
        name: "all marked",
        workers: 2,
        sessions: 1,
        lines: &[
            Redo(
                "1@10: Create t1 x1 im (int); Create t2 x1 im (int) | @11: Begin 7; Put 7 t1.0.0 (1); Put 7 t2.0.0 (2); Commit 7 + | @12: Begin 8; Put 8 t1.0.1 (3)",
            ),
            Work,
            Flush(1),
            Once(Restart, Moved),
            Populate(1, 1, 1, "scn=12 populated units=1"),
            Populate(1, 2, 1, "scn=12 populated units=1"),
            Redo("1@13: Commit 8 +"),
            Work,
            Flush(1),
            Select(
                1,
                "SELECT * FROM t1",
                1,
                "scn=13 rows=2 col=0 row=2\n= 1\n= 3",
            ),
            Select(1, "SELECT * FROM t2", 1, "scn=13 rows=1 col=0 row=1\n= 2"),
            Populate(1, 2, 1, "scn=13 populated units=1"),
            Select(1, "SELECT * FROM t2", 1, "scn=13 rows=1 col=1 row=0\n= 2"),
        ],
    },
    // Groups and conditions over rows of both sources.
    Run {
        name: "a group over units and blocks",
        workers: 3,
        sessions: 1,
        lines: &[
            Redo(
                "1@10: Create t1 x1 im (int, text) | @11: Begin 7; Put 7 t1.0.0 (1, 'a'); Put 7 t1.0.1 (2, 'b'); Put 7 t1.0.2 (5, 'a'); Put 7 t1.0.3 (NULL, 'b'); Put 7 t1.0.4 (9, NULL); Commit 7 +",
            ),
            Work,
            Flush(1),
            Populate(1, 1, 1, "scn=11 populated units=1"),
            Redo("1@12: Begin 8; Put 8 t1.0.4 (7, NULL); Commit 8 +"),
            Work,
            Flush(1),
            Select(
                1,
                "SELECT COUNT, SUM(c1), MAX(c1) FROM t1 GROUP BY c2",
                1,
                "scn=12 rows=3 col=4 row=1\n= NULL|1|7|7\n= 'a'|2|6|5\n= 'b'|2|2|2",
            ),
            Select(
                1,
                "SELECT COUNT FROM t1 WHERE c1 > 1 AND c2 <> 'b'",
                1,
                "scn=12 rows=1 col=4 row=1\n= 1",
            ),
        ],
    },
];

#[test]
fn plays_scans(rt: HostRuntime) -> Result<(), Fail> {
    play_all(&rt, rt.alloc(), RUNS.as_slice())
}
