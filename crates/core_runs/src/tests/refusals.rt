use crate::tests::line::Line::{Flush, Once, Populate, Redo, Select, Times, Work};
use crate::tests::line::Run;
use crate::tests::play::play_all;
use crate::tests::words::Ask::{
    Apply, BeginFlush, Claim, Collect, Done, Mine, PopBegin, PopEnd, PopRead, PopRegister,
    PopRelease, Publish, Raise, ScanBegin, ScanEnd, ScanExtent, Touch,
};
use crate::tests::words::Want::{Moved, NotReady, Said};
use std::test::Fail;

const RUNS: [Run; 3] = [
    // What a population and a scan are refused with at the QuerySCN, in the order of the refusals. The
    // session is free after each.
    Run {
        name: "refusals",
        workers: 1,
        sessions: 1,
        lines: &[
            Redo("1@10: Create t1 x1 im (int); Create t2 x1 plain (text)"),
            Once(PopBegin(1, 1), Said("scn=0 refused NoTable")),
            Once(
                ScanBegin(1, "SELECT * FROM t1"),
                Said("scn=0 refused NoTable"),
            ),
            Work,
            Flush(0),
            Once(PopBegin(1, 3), Said("scn=10 refused NoTable")),
            Once(PopBegin(1, 2), Said("scn=10 refused NotInMemory")),
            Once(
                ScanBegin(1, "SELECT * FROM t3"),
                Said("scn=10 refused NoTable"),
            ),
            Once(
                ScanBegin(1, "SELECT SUM(c2) FROM t1"),
                Said("scn=10 refused NoColumn"),
            ),
            Once(
                ScanBegin(1, "SELECT COUNT FROM t1 GROUP BY c2"),
                Said("scn=10 refused NoColumn"),
            ),
            Once(
                ScanBegin(1, "SELECT COUNT FROM t1 WHERE c2 = 1"),
                Said("scn=10 refused NoColumn"),
            ),
            Once(
                ScanBegin(1, "SELECT SUM(c1), MAX(c2) FROM t2"),
                Said("scn=10 refused NoColumn"),
            ),
            Once(
                ScanBegin(1, "SELECT SUM(c1) FROM t2"),
                Said("scn=10 refused WrongType"),
            ),
            Once(
                ScanBegin(1, "SELECT COUNT FROM t1 WHERE c1 = 'a'"),
                Said("scn=10 refused WrongType"),
            ),
            Once(
                ScanBegin(1, "SELECT COUNT FROM t2 WHERE c1 < 1"),
                Said("scn=10 refused WrongType"),
            ),
            Select(
                1,
                "SELECT MAX(c1) FROM t2",
                1,
                "scn=10 rows=1 col=0 row=0\n= NULL",
            ),
            Populate(1, 1, 1, "scn=10 populated units=1"),
            Redo("1@11: NoInMemory t1; DropObject t2"),
            Work,
            Flush(1),
            Once(PopBegin(1, 1), Said("scn=11 refused NotInMemory")),
            Once(PopBegin(1, 2), Said("scn=11 refused NoTable")),
            Once(
                ScanBegin(1, "SELECT SUM(c9) FROM t2"),
                Said("scn=11 refused NoTable"),
            ),
        ],
    },
    // Nothing can happen to a core that nothing was received for, but a refusal.
    Run {
        name: "nothing was received",
        workers: 2,
        sessions: 1,
        lines: &[
            Once(Apply(0), NotReady),
            Once(Mine(0), NotReady),
            Once(Raise(0, 0), NotReady),
            Once(Raise(0, 1), NotReady),
            Once(BeginFlush(0), NotReady),
            Once(BeginFlush(1), NotReady),
            Once(Claim(0), NotReady),
            Once(Collect(0), NotReady),
            Once(Touch(0), NotReady),
            Once(Done(0), NotReady),
            Once(Publish, NotReady),
            Once(PopRegister(1), NotReady),
            Once(PopRelease(1), NotReady),
            Once(PopRead(1), NotReady),
            Once(PopEnd(1), NotReady),
            Once(ScanExtent(1), NotReady),
            Once(ScanEnd(1), NotReady),
            Once(PopBegin(1, 1), Said("scn=0 refused NoTable")),
        ],
    },
    // A worker, an actor or a session that the core does not have can do nothing, also where one that it
    // has could do the same.
    Run {
        name: "who is not there",
        workers: 1,
        sessions: 2,
        lines: &[
            Redo("1@10: Create t1 x1 im (int) | @11: Begin 7; Put 7 t1.0.0 (1); Commit 7 +"),
            Once(Apply(1), NotReady),
            Once(Apply(255), NotReady),
            Once(Apply(0), Moved),
            Once(Mine(1), NotReady),
            Work,
            Redo("1@12:"),
            Once(Raise(1, 12), NotReady),
            Once(Raise(255, 12), NotReady),
            Once(BeginFlush(11), Moved),
            Once(Claim(2), NotReady),
            Once(Claim(255), NotReady),
            Once(Claim(1), Moved),
            Once(Collect(2), NotReady),
            Once(Collect(0), NotReady),
            Once(Collect(1), Moved),
            Once(Touch(2), NotReady),
            Once(Touch(0), NotReady),
            Times(32, Touch(1), Moved),
            Once(Done(2), NotReady),
            Once(Done(0), NotReady),
            Once(Done(1), Moved),
            Once(Publish, Moved),
            Once(PopBegin(0, 1), NotReady),
            Once(PopBegin(3, 1), NotReady),
            Once(PopBegin(0, 9), NotReady),
            Once(PopBegin(255, 9), NotReady),
            Once(PopBegin(1, 1), Moved),
            Once(PopRegister(0), NotReady),
            Once(PopRegister(2), NotReady),
            Once(PopRegister(3), NotReady),
            Once(PopRegister(1), Moved),
            Once(PopRelease(0), NotReady),
            Once(PopRelease(2), NotReady),
            Once(PopRelease(3), NotReady),
            Once(PopRelease(1), Moved),
            Once(PopRead(0), NotReady),
            Once(PopRead(2), NotReady),
            Once(PopRead(3), NotReady),
            Times(16, PopRead(1), Moved),
            Once(PopEnd(0), NotReady),
            Once(PopEnd(2), NotReady),
            Once(PopEnd(3), NotReady),
            Once(PopEnd(1), Said("scn=11 populated units=1")),
            Once(ScanBegin(0, "SELECT * FROM t1"), NotReady),
            Once(ScanBegin(3, "SELECT * FROM t1"), NotReady),
            Once(ScanBegin(3, "SELECT * FROM t9"), NotReady),
            Once(ScanBegin(2, "SELECT * FROM t1"), Moved),
            Once(ScanBegin(2, "SELECT * FROM t1"), NotReady),
            Once(PopBegin(2, 1), NotReady),
            Once(ScanExtent(0), NotReady),
            Once(ScanExtent(1), NotReady),
            Once(ScanExtent(3), NotReady),
            Once(ScanExtent(2), Moved),
            Once(ScanEnd(0), NotReady),
            Once(ScanEnd(1), NotReady),
            Once(ScanEnd(3), NotReady),
            Once(ScanEnd(2), Said("scn=11 rows=1 col=1 row=0\n= 1")),
        ],
    },
];

#[test]
fn plays_refusals(rt: HostRuntime) -> Result<(), Fail> {
    play_all(&rt, rt.alloc(), RUNS.as_slice())
}
