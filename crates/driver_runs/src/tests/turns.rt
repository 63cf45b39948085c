//! What a session is shown after so many turns of the others.

use crate::tests::play::{play, schedule_line};
use std::alloc::Global;
use std::test::Fail;

/// The schedule of a delivery, and the SCN that its session is shown.
///
/// A transaction changes a row at 11, with 10 published before. With one worker that is seven turns of
/// the worker: it applies and mines three entries, and comes to 11. Then there are 36 turns for the one
/// worklink: to begin the flush, to claim the worklink, to collect from the worker's area, to touch 32
/// shards, and to be done with it. The coordinator publishes in the next. Each worker more has its own
/// area, which is one turn more.
struct Look {
    name: &'static str,
    workers: u8,
    schedule: &'static str,
    shown: u64,
}

static LOOKS: [Look; 21] = [
    Look {
        name: "no bytes",
        workers: 1,
        schedule: "",
        shown: 10,
    },
    Look {
        name: "the session alone",
        workers: 1,
        schedule: "02*3",
        shown: 10,
    },
    Look {
        name: "a turn before the publication",
        workers: 1,
        schedule: "01*7 00*36 02",
        shown: 10,
    },
    Look {
        name: "behind the publication",
        workers: 1,
        schedule: "01*7 00*37 02",
        shown: 11,
    },
    Look {
        name: "the worker has not come to 11",
        workers: 1,
        schedule: "01*6 00*400 02",
        shown: 10,
    },
    Look {
        name: "more turns of the worker than it needs",
        workers: 1,
        schedule: "01*400 00*37 02",
        shown: 11,
    },
    Look {
        name: "the coordinator is first behind the bytes",
        workers: 1,
        schedule: "01*7 00*36",
        shown: 11,
    },
    Look {
        name: "the coordinator has one turn in a cycle",
        workers: 1,
        schedule: "01*7 00*35",
        shown: 10,
    },
    Look {
        name: "the worker has the worklink",
        workers: 1,
        schedule: "01*7 00 01*34 00*100 02",
        shown: 10,
    },
    Look {
        name: "the worker is done with the worklink",
        workers: 1,
        schedule: "01*7 00 01*35 00 02",
        shown: 11,
    },
    Look {
        name: "a worker does not publish",
        workers: 1,
        schedule: "01*7 00 01*400 02",
        shown: 10,
    },
    Look {
        name: "255 is the coordinator of three actors, a turn before",
        workers: 1,
        schedule: "01*7 ff*36 02",
        shown: 10,
    },
    Look {
        name: "255 is the coordinator of three actors",
        workers: 1,
        schedule: "01*7 ff*37 02",
        shown: 11,
    },
    Look {
        name: "65,536 bytes",
        workers: 1,
        schedule: "01*7 00*65528 02",
        shown: 11,
    },
    Look {
        name: "two workers, a turn before",
        workers: 2,
        schedule: "01*7 02*7 00*37 03",
        shown: 10,
    },
    Look {
        name: "two workers",
        workers: 2,
        schedule: "01*7 02*7 00*38 03",
        shown: 11,
    },
    Look {
        name: "two workers, of which one has had no turn",
        workers: 2,
        schedule: "01*400 00*400 03",
        shown: 10,
    },
    Look {
        name: "255 is the session of four actors",
        workers: 2,
        schedule: "02*7 01*7 00*38 ff",
        shown: 11,
    },
    Look {
        name: "eight workers, a turn before",
        workers: 8,
        schedule: "01*7 02*7 03*7 04*7 05*7 06*7 07*7 08*7 00*43 09",
        shown: 10,
    },
    Look {
        name: "eight workers",
        workers: 8,
        schedule: "01*7 02*7 03*7 04*7 05*7 06*7 07*7 08*7 00*44 09",
        shown: 11,
    },
    Look {
        name: "eight workers, of which 255 is the fifth",
        workers: 8,
        schedule: "08*7 07*7 06*7 ff*7 04*7 03*7 02*7 01*7 00*44 09",
        shown: 11,
    },
];

/// The deliveries of a look. The bytes of the second are not used, since nothing is left to do, and
/// would publish 11 if they went on with the third.
fn look_text(alloc: Global, words: &str) -> Result<String, Fail> {
    let line = schedule_line(alloc, words)?;
    Ok(format!(in alloc;
        "threads 1 sessions 1
1@10: Create t1 x1 im (int)
end
schedule 01*7 00*37
end
1@11: Begin 7; Put 7 t1.0.0 (5); Commit 7 +
session 1: SHOW SCN
{line}end
stop
"
    )?)
}

#[test]
fn shows_what_is_published(rt: HostRuntime) -> Result<(), Fail> {
    for look in &LOOKS {
        let text = look_text(rt.alloc(), look.schedule)?;
        let shown = look.shown;
        let lines = format!(in rt.alloc();
            "d1 end scn=10\nd2 end scn=10\nd3 s1 c1 scn={shown} shown\nd3 end scn=11\n"
        )?;
        play(
            &rt,
            rt.alloc(),
            look.name,
            look.workers,
            text.as_str(),
            lines.as_str(),
        )?;
    }
    Ok(())
}
