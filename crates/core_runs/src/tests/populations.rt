use crate::tests::line::Line::{Flush, Once, Redo, Select, Times, Work};
use crate::tests::line::Run;
use crate::tests::play::play_all;
use crate::tests::words::Ask::{
    BeginFlush, Claim, Collect, Done, PopBegin, PopEnd, PopRead, PopRegister, PopRelease, Publish,
    ScanBegin, Touch,
};
use crate::tests::words::Want::{Moved, NotReady, Said};
use std::test::Fail;

const RUNS: [Run; 4] = [
    // Each of two sessions takes the place of a unit of the other, so each installs one extent. While
    // either keeps publication back no flush begins.
    Run {
        name: "two sessions populate one object, each an extent",
        workers: 2,
        sessions: 2,
        lines: &[
            Redo(
                "1@10: Create t1 x2 im (int) | @11: Begin 7; Put 7 t1.0.0 (1); Put 7 t1.16.0 (2); Commit 7 +",
            ),
            Work,
            Flush(1),
            Redo("1@12:"),
            Work,
            Once(PopBegin(1, 1), Moved),
            Once(PopBegin(1, 1), NotReady),
            Once(ScanBegin(1, "SELECT * FROM t1"), NotReady),
            Once(PopRegister(1), Moved),
            Once(PopRelease(1), NotReady),
            Once(PopBegin(2, 1), Moved),
            Times(2, PopRegister(2), Moved),
            Once(PopRegister(2), NotReady),
            Once(PopRead(2), NotReady),
            Once(PopRelease(2), Moved),
            Once(PopRelease(2), NotReady),
            Once(BeginFlush(12), NotReady),
            Once(PopRegister(1), Moved),
            Once(PopRelease(1), Moved),
            Times(16, PopRead(2), Moved),
            Once(PopRead(2), NotReady),
            Times(15, PopRead(1), Moved),
            Once(PopEnd(1), NotReady),
            Once(PopRead(1), Moved),
            Once(PopEnd(1), Moved),
            Once(PopEnd(1), NotReady),
            Once(PopEnd(2), Moved),
            Times(16, PopRead(1), Moved),
            Times(16, PopRead(2), Moved),
            Once(PopEnd(2), Said("scn=11 populated units=1")),
            Once(PopEnd(1), Said("scn=11 populated units=1")),
            Select(
                1,
                "SELECT * FROM t1",
                2,
                "scn=11 rows=2 col=2 row=0\n= 1\n= 2",
            ),
            Flush(0),
        ],
    },
    // The later one takes the place of all units of the earlier, which reads on and installs nothing.
    Run {
        name: "two sessions populate one object, the later all of it",
        workers: 1,
        sessions: 2,
        lines: &[
            Redo(
                "1@10: Create t1 x2 im (int) | @11: Begin 7; Put 7 t1.0.0 (1); Put 7 t1.16.0 (2); Commit 7 +",
            ),
            Work,
            Flush(1),
            Once(PopBegin(1, 1), Moved),
            Times(2, PopRegister(1), Moved),
            Once(PopRelease(1), Moved),
            Times(16, PopRead(1), Moved),
            Once(PopBegin(2, 1), Moved),
            Times(2, PopRegister(2), Moved),
            Once(PopRelease(2), Moved),
            Once(PopEnd(1), Moved),
            Times(16, PopRead(1), Moved),
            Once(PopEnd(1), Said("scn=11 populated units=0")),
            Times(16, PopRead(2), Moved),
            Once(PopEnd(2), Moved),
            Select(
                1,
                "SELECT * FROM t1",
                2,
                "scn=11 rows=2 col=1 row=1\n= 1\n= 2",
            ),
            Times(16, PopRead(2), Moved),
            Once(PopEnd(2), Said("scn=11 populated units=2")),
            Select(
                1,
                "SELECT * FROM t1",
                2,
                "scn=11 rows=2 col=2 row=0\n= 1\n= 2",
            ),
        ],
    },
    // A flush begins once the population has let it, while half of the blocks are read, and marks in the
    // unit that waits for its columns.
    Run {
        name: "a population across a flush",
        workers: 2,
        sessions: 1,
        lines: &[
            Redo(
                "1@10: Create t1 x1 im (int) | @11: Begin 7; Put 7 t1.0.0 (1); Put 7 t1.0.1 (2); Put 7 t1.9.0 (3); Commit 7 +",
            ),
            Work,
            Flush(1),
            Redo("1@12: Begin 8; Put 8 t1.0.1 (9); Put 8 t1.9.1 (4); Commit 8 +"),
            Work,
            Once(PopBegin(1, 1), Moved),
            Once(BeginFlush(12), NotReady),
            Once(PopRegister(1), Moved),
            Once(BeginFlush(12), NotReady),
            Once(PopRelease(1), Moved),
            Times(8, PopRead(1), Moved),
            Once(BeginFlush(12), Moved),
            Once(Claim(2), Moved),
            Times(2, Collect(2), Moved),
            Times(32, Touch(2), Moved),
            Times(4, PopRead(1), Moved),
            Once(Done(2), Moved),
            Once(Publish, Moved),
            Times(4, PopRead(1), Moved),
            Once(PopEnd(1), Said("scn=11 populated units=1")),
            Select(
                1,
                "SELECT * FROM t1",
                1,
                "scn=12 rows=4 col=2 row=2\n= 1\n= 9\n= 3\n= 4",
            ),
        ],
    },
    // The object leaves memory while it is populated: its unit is gone when the columns come.
    Run {
        name: "a population of what leaves memory",
        workers: 2,
        sessions: 1,
        lines: &[
            Redo("1@10: Create t1 x1 im (int) | @11: Begin 7; Put 7 t1.0.0 (1); Commit 7 +"),
            Work,
            Flush(1),
            Once(PopBegin(1, 1), Moved),
            Once(PopRegister(1), Moved),
            Once(PopRelease(1), Moved),
            Times(16, PopRead(1), Moved),
            Redo("1@12: NoInMemory t1"),
            Work,
            Flush(1),
            Once(PopEnd(1), Said("scn=11 populated units=0")),
            Once(PopBegin(1, 1), Said("scn=12 refused NotInMemory")),
            Select(1, "SELECT * FROM t1", 1, "scn=12 rows=1 col=0 row=1\n= 1"),
        ],
    },
];

#[test]
fn plays_populations(rt: HostRuntime) -> Result<(), Fail> {
    play_all(&rt, rt.alloc(), RUNS.as_slice())
}
