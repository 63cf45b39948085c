use crate::tests::line::Line::{Flush, Once, Populate, Redo, Select, Times, Work};
use crate::tests::line::Run;
use crate::tests::play::play_all;
use crate::tests::words::Ask::{
    Apply, BeginFlush, Claim, Collect, Done, Mine, PopBegin, Publish, Raise, ScanBegin, ScanEnd,
    ScanExtent, Touch,
};
use crate::tests::words::Want::{Moved, NotReady, Said};
use std::test::Fail;

/// Which event moves and which is not ready, in its order. A scan that begins before the publication
/// says the old rows, the same scan after it the new ones. A population waits while the flush goes on.
const GUARDS: Run = Run {
    name: "guards",
    workers: 2,
    sessions: 1,
    lines: &[
        Redo(
            "1@10: Create t1 x1 im (int) | @11: Begin 7; Put 7 t1.0.0 (1); Put 7 t1.0.1 (2); Put 7 t1.1.0 (3); Commit 7 +",
        ),
        Work,
        Flush(1),
        Populate(1, 1, 1, "scn=11 populated units=1"),
        Select(
            1,
            "SELECT * FROM t1",
            1,
            "scn=11 rows=3 col=3 row=0\n= 1\n= 2\n= 3",
        ),
        Redo("1@12: Begin 8; Put 8 t1.0.1 (9); Commit 8 +"),
        Once(Apply(0), Moved),
        Once(Mine(0), Moved),
        Once(Apply(1), Moved),
        Once(Mine(1), Moved),
        Once(Apply(0), Moved),
        Once(Mine(0), Moved),
        Once(Raise(0, 12), Moved),
        Once(Raise(1, 12), Moved),
        Once(BeginFlush(12), Moved),
        Once(Claim(0), Moved),
        Once(Claim(1), NotReady),
        Once(Publish, NotReady),
        Once(PopBegin(1, 1), NotReady),
        Once(ScanBegin(1, "SELECT * FROM t1"), Moved),
        Once(ScanExtent(1), Moved),
        Once(ScanEnd(1), Said("scn=11 rows=3 col=3 row=0\n= 1\n= 2\n= 3")),
        Times(2, Collect(0), Moved),
        Times(32, Touch(0), Moved),
        Once(Done(0), Moved),
        Once(Publish, Moved),
        Once(ScanBegin(1, "SELECT * FROM t1"), Moved),
        Once(ScanExtent(1), Moved),
        Once(ScanEnd(1), Said("scn=12 rows=3 col=2 row=1\n= 1\n= 9\n= 3")),
        Once(PopBegin(1, 1), Moved),
    ],
};

#[test]
fn plays_the_guards(rt: HostRuntime) -> Result<(), Fail> {
    play_all(&rt, rt.alloc(), [GUARDS].as_slice())
}
