//! A round that prints the same under all schedules.

use crate::tests::play::{play, schedule_line};
use std::alloc::Global;
use std::test::Fail;

/// Schedule bytes by the number of workers.
struct Schedule {
    name: &'static str,
    one: &'static str,
    two: &'static str,
    eight: &'static str,
}

const FIRST: &str = "threads 1 sessions 2
1@10: Create t1 x1 im (int)
1@11: Begin 7; Put 7 t1.0.0 (1); Put 7 t1.0.1 (2); Put 7 t1.1.0 (3); Commit 7 +
session 1: SYNC
session 1: POPULATE t1
session 1: SELECT * FROM t1
session 2: SYNC
session 2: SHOW SCN
";

const SECOND: &str = "end
1@12: Begin 8; Put 8 t1.0.1 (9); Commit 8 +
session 1: SYNC
session 1: SELECT * FROM t1
session 2: SYNC
session 2: SELECT COUNT FROM t1
";

const LINES: &str = "d1 s1 c1 scn=11 synced
d1 s1 c2 scn=11 populated units=1
d1 s1 c3 scn=11 rows=3 col=3 row=0
= 1
= 2
= 3
d1 s2 c1 scn=11 synced
d1 s2 c2 scn=11 shown
d1 end scn=11
d2 s1 c1 scn=12 synced
d2 s1 c2 scn=12 rows=3 col=2 row=1
= 1
= 9
= 3
d2 s2 c1 scn=12 synced
d2 s2 c2 scn=12 rows=1 col=2 row=1
= 3
d2 end scn=12
";

/// With so many workers there are 4, 5 and 11 actors: behind the coordinator, which is 0, come the
/// workers, and then the two sessions.
static SCHEDULES: [Schedule; 14] = [
    Schedule {
        name: "none",
        one: "",
        two: "",
        eight: "",
    },
    Schedule {
        name: "the coordinator alone",
        one: "00*400",
        two: "00*400",
        eight: "00*400",
    },
    Schedule {
        name: "the first worker alone",
        one: "01*400",
        two: "01*400",
        eight: "01*400",
    },
    Schedule {
        name: "the last worker alone",
        one: "01*400",
        two: "02*400",
        eight: "08*400",
    },
    Schedule {
        name: "session one alone",
        one: "02*400",
        two: "03*400",
        eight: "09*400",
    },
    Schedule {
        name: "session two alone",
        one: "03*400",
        two: "04*400",
        eight: "0a*400",
    },
    Schedule {
        name: "the cycle of all",
        one: "00 01 02 03 00 01 02 03 00 01 02 03",
        two: "00 01 02 03 04 00 01 02 03 04 00 01 02 03 04",
        eight: "00 01 02 03 04 05 06 07 08 09 0a 00 01 02 03 04 05 06 07 08 09 0a",
    },
    Schedule {
        name: "the cycle backwards",
        one: "03 02 01 00 03 02 01 00 03 02 01 00",
        two: "04 03 02 01 00 04 03 02 01 00 04 03 02 01 00",
        eight: "0a 09 08 07 06 05 04 03 02 01 00 0a 09 08 07 06 05 04 03 02 01 00",
    },
    Schedule {
        name: "each actor forty times",
        one: "00*40 01*40 02*40 03*40",
        two: "00*40 01*40 02*40 03*40 04*40",
        eight: "00*40 01*40 02*40 03*40 04*40 05*40 06*40 07*40 08*40 09*40 0a*40",
    },
    Schedule {
        name: "the sessions, the workers, the coordinator",
        one: "02*40 03*40 01*40 00*40",
        two: "03*40 04*40 01*40 02*40 00*40",
        eight: "09*40 0a*40 01*40 02*40 03*40 04*40 05*40 06*40 07*40 08*40 00*40",
    },
    Schedule {
        name: "a byte of 255",
        one: "ff",
        two: "ff",
        eight: "ff",
    },
    Schedule {
        name: "255 again and again",
        one: "ff*400",
        two: "ff*400",
        eight: "ff*400",
    },
    Schedule {
        name: "bytes above the number of actors",
        one: "fe*30 c7*30 80*30 21*30 0c*30",
        two: "fe*30 c7*30 80*30 21*30 0c*30",
        eight: "fe*30 c7*30 80*30 21*30 0c*30",
    },
    Schedule {
        name: "65,536 bytes",
        one: "01*65536",
        two: "ff*65536",
        eight: "00*65536",
    },
];

/// The two deliveries of the round, with a line in front of the end of each.
fn round_text(alloc: Global, words: &str) -> Result<String, Fail> {
    let line = schedule_line(alloc, words)?;
    Ok(format!(in alloc; "{FIRST}{line}{SECOND}{line}end\nstop\n")?)
}

#[test]
fn prints_the_same_under_each_schedule(rt: HostRuntime) -> Result<(), Fail> {
    for schedule in &SCHEDULES {
        let rows = [(1, schedule.one), (2, schedule.two), (8, schedule.eight)];
        for (workers, words) in rows {
            let text = round_text(rt.alloc(), words)?;
            play(
                &rt,
                rt.alloc(),
                schedule.name,
                workers,
                text.as_str(),
                LINES,
            )?;
        }
    }
    Ok(())
}

/// As many schedule bytes as a delivery can bring, so that it brings nothing else: the redo comes with
/// the delivery before, which an ABORT ends before anything is published. The worker does its share in
/// its first turns, and rests in all the others.
const MOST_BYTES: &str = "threads 1 sessions 1
1@10: Create t1 x1 im (int)
1@11: Begin 7; Put 7 t1.0.0 (5); Commit 7 +
session 1: ABORT
end
schedule 01*33554432
end
session 1: SELECT * FROM t1
end
stop
";

const MOST_BYTES_LINES: &str = "d1 s1 c1 scn=0 aborted
d1 end scn=0
d2 end scn=11
d3 s1 c1 scn=11 rows=1 col=0 row=1
= 5
d3 end scn=11
";

#[test]
fn ends_behind_33554432_bytes(rt: HostRuntime) -> Result<(), Fail> {
    play(
        &rt,
        rt.alloc(),
        "most bytes",
        1,
        MOST_BYTES,
        MOST_BYTES_LINES,
    )
}
