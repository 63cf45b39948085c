/// A worked case. Its feed as text and what it prints lie in files of its name.
#[derive(Clone, Copy, Debug)]
pub struct Case {
    pub name: &'static str,
    /// The numbers of workers with which it prints these lines.
    pub workers: &'static [&'static str],
    /// Whether it prints them whatever the schedule bytes are.
    pub any_schedule: bool,
    pub status: u8,
}

const ONE: &[&str] = &["1"];

const SOME: &[&str] = &["1", "2", "8"];

/// The worked cases.
pub static CASES: [Case; 32] = [
    Case {
        name: "first_answer_no_such_table",
        workers: SOME,
        any_schedule: true,
        status: 0,
    },
    Case {
        name: "end_of_thread",
        workers: SOME,
        any_schedule: true,
        status: 0,
    },
    Case {
        name: "silent_thread",
        workers: SOME,
        any_schedule: true,
        status: 0,
    },
    Case {
        name: "nothing_to_undo",
        workers: SOME,
        any_schedule: true,
        status: 3,
    },
    Case {
        name: "ended_threads",
        workers: SOME,
        any_schedule: true,
        status: 3,
    },
    Case {
        name: "slot_beyond_the_end",
        workers: SOME,
        any_schedule: true,
        status: 3,
    },
    Case {
        name: "block_beyond_the_end",
        workers: SOME,
        any_schedule: true,
        status: 3,
    },
    Case {
        name: "not_committed",
        workers: SOME,
        any_schedule: true,
        status: 0,
    },
    Case {
        name: "equal_scns",
        workers: SOME,
        any_schedule: true,
        status: 0,
    },
    Case {
        name: "equal_scns_thread_two_first",
        workers: SOME,
        any_schedule: true,
        status: 0,
    },
    Case {
        name: "commit_position_wins",
        workers: SOME,
        any_schedule: true,
        status: 0,
    },
    Case {
        name: "settled_versions",
        workers: SOME,
        any_schedule: true,
        status: 0,
    },
    Case {
        name: "undo",
        workers: SOME,
        any_schedule: true,
        status: 0,
    },
    Case {
        name: "ends_of_ranges",
        workers: SOME,
        any_schedule: true,
        status: 0,
    },
    Case {
        name: "groups",
        workers: SOME,
        any_schedule: true,
        status: 0,
    },
    Case {
        name: "question_without_sync",
        workers: SOME,
        any_schedule: false,
        status: 0,
    },
    Case {
        name: "all_from_columns",
        workers: SOME,
        any_schedule: true,
        status: 0,
    },
    Case {
        name: "one_invalid_row",
        workers: SOME,
        any_schedule: true,
        status: 0,
    },
    Case {
        name: "commit_at_the_snapshot",
        workers: SOME,
        any_schedule: true,
        status: 0,
    },
    Case {
        name: "ddl",
        workers: SOME,
        any_schedule: true,
        status: 0,
    },
    Case {
        name: "query_refusals",
        workers: SOME,
        any_schedule: true,
        status: 0,
    },
    Case {
        name: "groups_after_populate",
        workers: SOME,
        any_schedule: true,
        status: 0,
    },
    Case {
        name: "begun_before_a_restart",
        workers: SOME,
        any_schedule: true,
        status: 0,
    },
    Case {
        name: "begun_just_above_the_published_scn",
        workers: ONE,
        any_schedule: false,
        status: 0,
    },
    Case {
        name: "down",
        workers: SOME,
        any_schedule: true,
        status: 0,
    },
    Case {
        name: "shown_before_the_abort",
        workers: ONE,
        any_schedule: false,
        status: 0,
    },
    Case {
        name: "limit_columns",
        workers: SOME,
        any_schedule: true,
        status: 0,
    },
    Case {
        name: "limit_columns_exceeded",
        workers: ONE,
        any_schedule: true,
        status: 3,
    },
    Case {
        name: "limit_shortest_record",
        workers: SOME,
        any_schedule: true,
        status: 0,
    },
    Case {
        name: "limit_greatest_scn",
        workers: SOME,
        any_schedule: true,
        status: 0,
    },
    Case {
        name: "limit_extents",
        workers: SOME,
        any_schedule: true,
        status: 0,
    },
    Case {
        name: "each_reply",
        workers: SOME,
        any_schedule: true,
        status: 0,
    },
];

/// Three rows, read from columns, and then one of them changes.
pub const CHANGED: &str = "threads 1 sessions 1
1@10: Create t1 x1 im (int)
1@11: Begin 7; Put 7 t1.0.0 (1); Put 7 t1.0.1 (2); Put 7 t1.1.0 (3); Commit 7 +
end
session 1: POPULATE t1
session 1: SELECT * FROM t1
end
1@12: Begin 8; Put 8 t1.0.1 (9); Commit 8 +
";

/// What is printed up to the change, and what behind the delivery that brings it.
pub const CHANGED_LINES: &str = "d1 end scn=11
d2 s1 c1 scn=11 populated units=1
d2 s1 c2 scn=11 rows=3 col=3 row=0
= 1
= 2
= 3
d2 end scn=11
";

pub const READ_LINES: &str = "d4 s1 c1 scn=12 synced
d4 s1 c2 scn=12 rows=3 col=0 row=3
= 1
= 9
= 3
d4 end scn=12
";
