//! ABORT in two sessions at once, while others populate and scan.

use crate::tests::play::{play, schedule_line};
use std::alloc::Global;
use std::test::Fail;

/// The schedule of a delivery in which sessions 1 and 5 populate a table of two extents, sessions 2 and 6
/// select from it, and sessions 3 and 4 have an ABORT each; and its lines.
///
/// A population has 38 turns: it begins, registers two units, lets publication go on, and then reads 16
/// blocks of an extent and ends it, twice. A scan has four: it begins, goes over two extents, and ends.
struct Stop {
    name: &'static str,
    workers: u8,
    schedule: &'static str,
    lines: &'static str,
}

const FIRST: &str = "threads 1 sessions 6
1@10: Create t1 x2 im (int)
1@11: Begin 7; Put 7 t1.0.0 (1); Put 7 t1.16.0 (2); Commit 7 +
end
1@12: Begin 8; Put 8 t1.0.0 (9); Commit 8 +
session 1: POPULATE t1
session 1: SHOW SCN
session 2: SELECT * FROM t1
session 3: ABORT
session 4: ABORT
session 5: POPULATE t1
session 6: SELECT COUNT FROM t1
";

/// Behind the restart all goes on: what was not published is, and rows come from new units.
const SECOND: &str = "end
session 1: SYNC
session 1: POPULATE t1
session 1: SELECT * FROM t1
session 3: SYNC
end
1@13: Begin 9; Put 9 t1.16.0 (3); Commit 9 +
session 4: SYNC
session 4: SELECT * FROM t1
end
stop
";

const SECOND_LINES: &str = "d3 s1 c1 scn=12 synced
d3 s1 c2 scn=12 populated units=2
d3 s1 c3 scn=12 rows=2 col=2 row=0
= 9
= 2
d3 s3 c1 scn=12 synced
d3 end scn=12
d4 s4 c1 scn=13 synced
d4 s4 c2 scn=13 rows=2 col=1 row=1
= 9
= 3
d4 end scn=13
";

/// Session 3 aborts, and nothing else is answered.
const BY_THREE: &str = "d2 s1 c1 down
d2 s1 c2 down
d2 s2 c1 down
d2 s3 c1 scn=11 aborted
d2 s4 c1 down
d2 s5 c1 down
d2 s6 c1 down
d2 end scn=11
";

/// Session 4 aborts, and nothing else is answered.
const BY_FOUR: &str = "d2 s1 c1 down
d2 s1 c2 down
d2 s2 c1 down
d2 s3 c1 down
d2 s4 c1 scn=11 aborted
d2 s5 c1 down
d2 s6 c1 down
d2 end scn=11
";

static STOPS: [Stop; 22] = [
    Stop {
        name: "the cycle",
        workers: 1,
        schedule: "",
        lines: BY_THREE,
    },
    Stop {
        name: "the cycle",
        workers: 2,
        schedule: "",
        lines: BY_THREE,
    },
    Stop {
        name: "the cycle",
        workers: 8,
        schedule: "",
        lines: BY_THREE,
    },
    Stop {
        name: "session four is first",
        workers: 1,
        schedule: "05 04",
        lines: BY_FOUR,
    },
    Stop {
        name: "session four is first",
        workers: 2,
        schedule: "06 05",
        lines: BY_FOUR,
    },
    Stop {
        name: "session four is first",
        workers: 8,
        schedule: "0c 0b",
        lines: BY_FOUR,
    },
    Stop {
        name: "a population and a scan have begun",
        workers: 1,
        schedule: "02 03 05",
        lines: BY_FOUR,
    },
    Stop {
        name: "one unit is registered, one extent gathered",
        workers: 2,
        schedule: "03*2 04*2 05",
        lines: BY_THREE,
    },
    Stop {
        name: "publication goes on, a scan is to end",
        workers: 8,
        schedule: "09*4 0a*3 0c",
        lines: BY_FOUR,
    },
    Stop {
        name: "one extent is installed",
        workers: 1,
        schedule: "02*21 03*3 04",
        lines: BY_THREE,
    },
    Stop {
        name: "a turn before the replies",
        workers: 1,
        schedule: "02*37 03*3 05",
        lines: BY_FOUR,
    },
    Stop {
        name: "the replies are told",
        workers: 1,
        schedule: "02*38 03*4 05",
        lines: "d2 s1 c1 scn=11 populated units=2
d2 s1 c2 down
d2 s2 c1 scn=11 rows=2 col=2 row=0
= 1
= 2
d2 s3 c1 down
d2 s4 c1 scn=11 aborted
d2 s5 c1 down
d2 s6 c1 down
d2 end scn=11
",
    },
    Stop {
        name: "the scan is told before anything is installed",
        workers: 2,
        schedule: "03*20 04*4 03*18 06",
        lines: "d2 s1 c1 scn=11 populated units=2
d2 s1 c2 down
d2 s2 c1 scn=11 rows=2 col=0 row=2
= 1
= 2
d2 s3 c1 down
d2 s4 c1 scn=11 aborted
d2 s5 c1 down
d2 s6 c1 down
d2 end scn=11
",
    },
    Stop {
        name: "two populations and two scans are open",
        workers: 1,
        schedule: "02*2 06*3 03*2 07 05",
        lines: BY_FOUR,
    },
    Stop {
        name: "two populations and two scans are open",
        workers: 2,
        schedule: "07*4 03*30 04 08*3 05",
        lines: BY_THREE,
    },
    Stop {
        name: "two populations and two scans are open",
        workers: 8,
        schedule: "09*21 0d*37 0a*3 0e*2 0c",
        lines: BY_FOUR,
    },
    Stop {
        name: "one population is told, another has put its units there",
        workers: 1,
        schedule: "02*38 06*20 03*4 07*3 04",
        lines: "d2 s1 c1 scn=11 populated units=2
d2 s1 c2 down
d2 s2 c1 scn=11 rows=2 col=0 row=2
= 1
= 2
d2 s3 c1 scn=11 aborted
d2 s4 c1 down
d2 s5 c1 down
d2 s6 c1 down
d2 end scn=11
",
    },
    Stop {
        name: "one population is told, another has installed an extent",
        workers: 1,
        schedule: "02*38 06*21 03*4 07*3 04",
        lines: "d2 s1 c1 scn=11 populated units=2
d2 s1 c2 down
d2 s2 c1 scn=11 rows=2 col=1 row=1
= 1
= 2
d2 s3 c1 scn=11 aborted
d2 s4 c1 down
d2 s5 c1 down
d2 s6 c1 down
d2 end scn=11
",
    },
    Stop {
        name: "a flush goes on, and keeps the population from beginning",
        workers: 1,
        schedule: "01*7 00*5 02*40 03*2 05",
        lines: BY_FOUR,
    },
    Stop {
        name: "a flush of two workers goes on behind a population that reads",
        workers: 2,
        schedule: "03*9 01*7 02*7 00*2 01*9 04*2 05",
        lines: BY_THREE,
    },
    Stop {
        name: "a population keeps the flush from beginning",
        workers: 1,
        schedule: "02*3 01*7 00*100 03*2 04",
        lines: BY_THREE,
    },
    Stop {
        name: "a population goes on while 12 is published",
        workers: 1,
        schedule: "02*9 03*2 01*7 00*37 04",
        lines: "d2 s1 c1 down
d2 s1 c2 down
d2 s2 c1 down
d2 s3 c1 scn=12 aborted
d2 s4 c1 down
d2 s5 c1 down
d2 s6 c1 down
d2 end scn=12
",
    },
];

/// The deliveries of a stop, with their schedule.
fn stop_text(alloc: Global, words: &str) -> Result<String, Fail> {
    let line = schedule_line(alloc, words)?;
    Ok(format!(in alloc; "{FIRST}{line}{SECOND}")?)
}

#[test]
fn stops_at_the_first_of_two_aborts(rt: HostRuntime) -> Result<(), Fail> {
    for stop in &STOPS {
        let text = stop_text(rt.alloc(), stop.schedule)?;
        let begins = stop.lines;
        let lines = format!(in rt.alloc(); "d1 end scn=11\n{begins}{SECOND_LINES}")?;
        play(
            &rt,
            rt.alloc(),
            stop.name,
            stop.workers,
            text.as_str(),
            lines.as_str(),
        )?;
    }
    Ok(())
}
