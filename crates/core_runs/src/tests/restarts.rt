use crate::tests::line::Line::{Flush, Once, Populate, Redo, Select, Times, Work};
use crate::tests::line::Run;
use crate::tests::play::play_all;
use crate::tests::words::Ask::{
    Apply, BeginFlush, Claim, Collect, Mine, PopBegin, PopEnd, PopRead, PopRegister, PopRelease,
    Publish, Raise, Restart, ScanBegin, ScanEnd, ScanExtent, Touch,
};
use crate::tests::words::Want::{Moved, NotReady, Said};
use std::test::Fail;

const RUNS: [Run; 3] = [
    // Transaction 8 began before the restart, so its commit marks the unit wholly.
    Run {
        name: "begun before a restart",
        workers: 2,
        sessions: 1,
        lines: &[
            Redo(
                "1@10: Create t1 x1 im (int) | @11: Begin 7; Put 7 t1.0.0 (1); Commit 7 + | @12: Begin 8; Put 8 t1.0.1 (2)",
            ),
            Work,
            Flush(1),
            Once(Restart, Moved),
            Once(Apply(0), NotReady),
            Once(Apply(1), NotReady),
            Populate(1, 1, 1, "scn=12 populated units=1"),
            Redo("1@13: Commit 8 +"),
            Work,
            Flush(1),
            Select(
                1,
                "SELECT * FROM t1",
                1,
                "scn=13 rows=2 col=0 row=2\n= 1\n= 2",
            ),
        ],
    },
    // The entries of transaction 8 lie above the QuerySCN of the restart: the blocks have them already,
    // and they are mined again. So its commit marks its own row alone.
    Run {
        name: "begun just above the QuerySCN at the restart",
        workers: 1,
        sessions: 1,
        lines: &[
            Redo("1@10: Create t1 x1 im (int) | @11: Begin 7; Put 7 t1.0.0 (1); Commit 7 +"),
            Work,
            Flush(1),
            Redo("1@12: Begin 8; Put 8 t1.0.1 (2)"),
            Once(Apply(0), Moved),
            Once(Mine(0), Moved),
            Once(Apply(0), Moved),
            Once(Restart, Moved),
            Once(Mine(0), NotReady),
            Once(Raise(0, 11), NotReady),
            Times(2, Apply(0), Moved),
            Once(Apply(0), NotReady),
            Times(2, Mine(0), Moved),
            Once(Mine(0), NotReady),
            Once(Raise(0, 12), Moved),
            Flush(0),
            Populate(1, 1, 1, "scn=12 populated units=1"),
            Redo("1@13: Commit 8 +"),
            Work,
            Flush(1),
            Select(
                1,
                "SELECT * FROM t1",
                1,
                "scn=13 rows=2 col=1 row=1\n= 1\n= 2",
            ),
        ],
    },
    // A restart in the midst of a flush, a population and a scan: all of them are gone, the QuerySCN and
    // the blocks stay, and the flush is made again from the log.
    Run {
        name: "a restart in the midst of all",
        workers: 2,
        sessions: 3,
        lines: &[
            Redo(
                "1@10: Create t1 x1 im (int) | @11: Begin 7; Put 7 t1.0.0 (1); Put 7 t1.0.1 (2); Commit 7 +",
            ),
            Work,
            Flush(1),
            Populate(1, 1, 1, "scn=11 populated units=1"),
            Once(PopBegin(2, 1), Moved),
            Once(PopRegister(2), Moved),
            Once(PopRelease(2), Moved),
            Times(16, PopRead(2), Moved),
            Once(ScanBegin(3, "SELECT * FROM t1"), Moved),
            Once(ScanExtent(3), Moved),
            Redo("1@12: Begin 8; Put 8 t1.0.1 (9); Commit 8 +"),
            Work,
            Once(BeginFlush(12), Moved),
            Once(Claim(1), Moved),
            Times(2, Collect(1), Moved),
            Times(2, Touch(1), Moved),
            Once(Restart, Moved),
            Once(Touch(1), NotReady),
            Once(Claim(0), NotReady),
            Once(Publish, NotReady),
            Once(PopEnd(2), NotReady),
            Once(ScanEnd(3), NotReady),
            Select(
                3,
                "SELECT * FROM t1",
                1,
                "scn=11 rows=2 col=0 row=2\n= 1\n= 2",
            ),
            Once(BeginFlush(12), NotReady),
            Populate(2, 1, 1, "scn=11 populated units=1"),
            Work,
            Flush(1),
            Select(
                3,
                "SELECT * FROM t1",
                1,
                "scn=12 rows=2 col=1 row=1\n= 1\n= 9",
            ),
        ],
    },
];

#[test]
fn plays_restarts(rt: HostRuntime) -> Result<(), Fail> {
    play_all(&rt, rt.alloc(), RUNS.as_slice())
}
