//! Worked cases.

use crate::tests::play::play;
use std::test::Fail;

/// A feed as text, and the lines that it prints with each of some numbers of workers.
struct Case {
    name: &'static str,
    workers: &'static [u8],
    text: &'static str,
    lines: &'static str,
}

const ONE: &[u8] = &[1];

const SOME: &[u8] = &[1, 2, 8];

static CASES: [Case; 7] = [
    Case {
        name: "all from columns",
        workers: SOME,
        text: "threads 1 sessions 1
1@10: Create t1 x1 im (int)
1@11: Begin 7; Put 7 t1.0.0 (1); Put 7 t1.0.1 (2); Put 7 t1.1.0 (3); Commit 7 +
end
session 1: POPULATE t1
session 1: SELECT * FROM t1
end
stop
",
        lines: "d1 end scn=11
d2 s1 c1 scn=11 populated units=1
d2 s1 c2 scn=11 rows=3 col=3 row=0
= 1
= 2
= 3
d2 end scn=11
",
    },
    Case {
        name: "one invalid row",
        workers: SOME,
        text: "threads 1 sessions 1
1@10: Create t1 x1 im (int)
1@11: Begin 7; Put 7 t1.0.0 (1); Put 7 t1.0.1 (2); Put 7 t1.1.0 (3); Commit 7 +
end
session 1: POPULATE t1
session 1: SELECT * FROM t1
end
1@12: Begin 8; Put 8 t1.0.1 (9); Commit 8 +
session 1: SYNC
session 1: SELECT * FROM t1
end
stop
",
        lines: "d1 end scn=11
d2 s1 c1 scn=11 populated units=1
d2 s1 c2 scn=11 rows=3 col=3 row=0
= 1
= 2
= 3
d2 end scn=11
d3 s1 c1 scn=12 synced
d3 s1 c2 scn=12 rows=3 col=2 row=1
= 1
= 9
= 3
d3 end scn=12
",
    },
    Case {
        name: "begun before a restart",
        workers: SOME,
        text: "threads 1 sessions 1
1@10: Create t1 x1 im (int)
1@11: Begin 7; Put 7 t1.0.0 (1); Commit 7 +
1@12: Begin 8; Put 8 t1.0.1 (2)
session 1: SYNC
session 1: ABORT
end
session 1: POPULATE t1
end
1@13: Commit 8 +
session 1: SYNC
session 1: SELECT * FROM t1
end
stop
",
        lines: "d1 s1 c1 scn=12 synced
d1 s1 c2 scn=12 aborted
d1 end scn=12
d2 s1 c1 scn=12 populated units=1
d2 end scn=12
d3 s1 c1 scn=13 synced
d3 s1 c2 scn=13 rows=2 col=0 row=2
= 1
= 2
d3 end scn=13
",
    },
    Case {
        name: "begun just above the QuerySCN",
        workers: ONE,
        text: "threads 1 sessions 1
1@10: Create t1 x1 im (int)
1@11: Begin 7; Put 7 t1.0.0 (1); Commit 7 +
end
1@12: Begin 8; Put 8 t1.0.1 (2)
schedule 01 01 01 02
session 1: ABORT
end
session 1: SYNC
session 1: POPULATE t1
end
1@13: Commit 8 +
session 1: SYNC
session 1: SELECT * FROM t1
end
stop
",
        lines: "d1 end scn=11
d2 s1 c1 scn=11 aborted
d2 end scn=11
d3 s1 c1 scn=12 synced
d3 s1 c2 scn=12 populated units=1
d3 end scn=12
d4 s1 c1 scn=13 synced
d4 s1 c2 scn=13 rows=2 col=1 row=1
= 1
= 2
d4 end scn=13
",
    },
    Case {
        name: "down",
        workers: SOME,
        text: "threads 1 sessions 1
1@10: Create t1 x1 im (int)
session 1: SYNC
session 1: ABORT
session 1: SHOW SCN
end
session 1: SHOW SCN
end
stop
",
        lines: "d1 s1 c1 scn=10 synced
d1 s1 c2 scn=10 aborted
d1 s1 c3 down
d1 end scn=10
d2 s1 c1 scn=10 shown
d2 end scn=10
",
    },
    Case {
        name: "session two is first",
        workers: ONE,
        text: "threads 1 sessions 2
1@10: Create t1 x1 im (int)
session 1: SYNC
session 1: ABORT
session 2: SHOW SCN
schedule 03
end
stop
",
        lines: "d1 s1 c1 scn=10 synced
d1 s1 c2 scn=10 aborted
d1 s2 c1 scn=0 shown
d1 end scn=10
",
    },
    Case {
        name: "no commands",
        workers: SOME,
        text: "threads 1 sessions 2
1@10: Create t1 x1 im (int)
1@11: Begin 7; Put 7 t1.0.0 (1); Commit 7 +
end
end
1@12:
end
session 2: SHOW SCN
end
stop
",
        lines: "d1 end scn=11
d2 end scn=11
d3 end scn=12
d4 s2 c1 scn=12 shown
d4 end scn=12
",
    },
];

#[test]
fn plays_the_worked_cases(rt: HostRuntime) -> Result<(), Fail> {
    for case in &CASES {
        for workers in case.workers {
            play(&rt, rt.alloc(), case.name, *workers, case.text, case.lines)?;
        }
    }
    Ok(())
}
