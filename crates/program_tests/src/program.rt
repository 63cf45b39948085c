mod soak;

use adg_io::gate::OpenGate;
use adg_io::memory_sink::MemSink;
use adg_io::memory_source::MemSource;
use feed_run::outcome::Outcome;
use imadg_top::{standby, stepped};
use std::alloc::Global;
use std::process::Abort;
use std::sync::Wait;
use std::test::Fail;
use std::thread::Threads;

/// A feed of one thread and one session with two deliveries: redo, and a command.
const FEED: [u8; 139] = *b"IMADG01\nH\0\0\0\x02\x01\x01\
R\0\0\0\x4e\x01\0\x15\0\0\0\0\0\0\0\x0a\x01\x07\0\x01\0\x01\x01\x01\x01\0\x15\
\0\x38\0\0\0\0\0\0\0\x0b\x03\x01\0\0\0\0\0\0\0\x07\
\x02\0\0\0\0\0\0\0\x07\0\x01\0\0\0\x01\x01\0\0\0\0\0\0\0\x05\
\x05\0\0\0\0\0\0\0\x07\x01\0\x38\
E\0\0\0\0Q\0\0\0\x15\x01SELECT COUNT FROM t1E\0\0\0\0X\0\0\0\0";

const ANSWER: &str = "d1 end scn=11\nd2 s1 c1 scn=11 rows=1 col=0 row=1\n= 1\nd2 end scn=11\n";

const USAGE: &str = "usage: imadg step|run|soak|audit [--workers N] [--seed N] [--txns N]\n";

const ONE_WORKER: [&str; 3] = ["step", "--workers", "1"];

/// How many bytes a call gives and takes, and the number of the call that fails, 0 for none.
#[derive(Clone, Copy)]
struct Outside {
    gives: usize,
    failing_read: u64,
    takes: usize,
    failing_write: u64,
}

const CALM: Outside = Outside {
    gives: 100_000,
    failing_read: 0,
    takes: 4_096,
    failing_write: 0,
};

fn words_of(alloc: Global, words: &[&str]) -> Result<Vec<String>, Fail> {
    let mut owned = Vec::new(alloc);
    for word in words {
        let mut text = String::new(alloc);
        text.push_str(word)?;
        owned.push(text)?;
    }
    Ok(owned)
}

fn source_of(alloc: Global, feed: &[u8], outside: Outside) -> Result<MemSource, Fail> {
    let failing = Vec::from_slice(alloc, &[outside.failing_read])?;
    Ok(MemSource::new(Vec::from_slice(alloc, feed)?, outside.gives, failing))
}

fn sink_of(alloc: Global, outside: Outside) -> Result<MemSink, Fail> {
    let failing = Vec::from_slice(alloc, &[outside.failing_write])?;
    Ok(MemSink::new(alloc, 16_777_216, outside.takes, failing)?)
}

/// Runs a feed by both top calls, and compares the status, what was taken and what was written.
fn assert_runs(
    rt: &(impl Abort + Threads + Wait + Sync),
    alloc: Global,
    name: &str,
    words: &[&str],
    feed: &[u8],
    outside: Outside,
    wanted: (u8, u64, &str),
) -> Result<(), Fail> {
    let (status, taken, written) = wanted;
    let words = words_of(alloc, words)?;
    let left = (feed.len() as u64).saturating_sub(taken);
    let ended = Outcome {
        status,
        taken,
        written: written.len() as u64,
    };
    for threads in [false, true] {
        let mut source = source_of(alloc, feed, outside)?;
        let mut sink = sink_of(alloc, outside)?;
        let outcome = if threads {
            standby(
                rt,
                alloc,
                words.as_slice(),
                &mut source,
                &mut sink,
                &OpenGate,
            )
        } else {
            stepped(alloc, words.as_slice(), &mut source, &mut sink)
        };
        assert_eq!(rt; outcome, ended, "{name}");
        assert_eq!(rt; sink.held(), written.as_bytes(), "{name}");
        assert_eq!(rt; source.left().len() as u64, left, "{name}");
    }
    Ok(())
}

/// The first bytes of a feed, with these in the place of its own.
fn damaged(
    alloc: Global,
    whole: &[u8],
    len: usize,
    damage: &[(usize, u8)],
) -> Result<Vec<u8>, Fail> {
    let mut feed = Vec::from_slice(alloc, whole)?;
    feed.truncate(len);
    for (at, byte) in damage {
        if *at < feed.len() {
            feed[*at] = *byte;
        }
    }
    Ok(feed)
}

/// A name, the length of the feed, the bytes that are others, and how the run ends.
type Damage = (
    &'static str,
    usize,
    &'static [(usize, u8)],
    u8,
    u64,
    &'static str,
);

const DAMAGES: [Damage; 24] = [
    ("none", 139, &[], 0, 139, ANSWER),
    (
        "no byte",
        0,
        &[],
        2,
        0,
        "feed refused: Truncated at byte 0\n",
    ),
    (
        "cut in the redo",
        60,
        &[],
        2,
        60,
        "feed refused: Truncated at byte 60\n",
    ),
    (
        "cut before the end",
        138,
        &[],
        2,
        138,
        "d1 end scn=11\nd2 s1 c1 scn=11 rows=1 col=0 row=1\n= 1\nd2 end scn=11\nfeed refused: Truncated at byte 138\n",
    ),
    (
        "another magic",
        139,
        &[(0, 0x48)],
        2,
        8,
        "feed refused: BadMagic at byte 0\n",
    ),
    (
        "no such tag",
        139,
        &[(15, 0x5a)],
        2,
        16,
        "feed refused: BadTag at byte 15\n",
    ),
    (
        "no header",
        139,
        &[(8, 0x52)],
        2,
        9,
        "feed refused: BadOrder at byte 8\n",
    ),
    (
        "a second header",
        139,
        &[(15, 0x48)],
        2,
        16,
        "feed refused: BadOrder at byte 15\n",
    ),
    (
        "a header of 3 bytes",
        139,
        &[(12, 3)],
        2,
        13,
        "feed refused: BadLength at byte 8\n",
    ),
    (
        "a text of 1,025 bytes",
        139,
        &[(106, 4), (107, 2)],
        2,
        108,
        "d1 end scn=11\nfeed refused: BadLength at byte 103\n",
    ),
    (
        "no thread",
        139,
        &[(13, 0)],
        2,
        14,
        "feed refused: BadThread at byte 8\n",
    ),
    (
        "redo of thread 2",
        139,
        &[(20, 2)],
        2,
        21,
        "feed refused: BadThread at byte 15\n",
    ),
    (
        "nine sessions",
        139,
        &[(14, 9)],
        2,
        15,
        "feed refused: BadSession at byte 8\n",
    ),
    (
        "a command of session 2",
        139,
        &[(108, 2)],
        2,
        109,
        "d1 end scn=11\nfeed refused: BadSession at byte 103\n",
    ),
    (
        "32 MiB and a byte",
        139,
        &[(16, 2), (19, 1)],
        2,
        20,
        "feed refused: TooLarge at byte 15\n",
    ),
    (
        "a second thread that is silent",
        139,
        &[(13, 2)],
        0,
        139,
        "d1 end scn=0\nd2 s1 c1 scn=0 refused NoTable\nd2 end scn=0\n",
    ),
    (
        "another trailer",
        139,
        &[(97, 0x39)],
        3,
        103,
        "redo refused: thread 1 record 2 BadTrailer\n",
    ),
    (
        "two other trailers",
        139,
        &[(41, 0x16), (97, 0x39)],
        3,
        103,
        "redo refused: thread 1 record 1 BadTrailer\n",
    ),
    (
        "a record of 12 bytes",
        139,
        &[(22, 12)],
        3,
        103,
        "redo refused: thread 1 record 1 BadLength\n",
    ),
    (
        "SCN 0",
        139,
        &[(30, 0)],
        3,
        103,
        "redo refused: thread 1 record 1 ScnRange\n",
    ),
    (
        "an SCN that stands still",
        139,
        &[(51, 10)],
        3,
        103,
        "redo refused: thread 1 record 2 ScnOrder\n",
    ),
    (
        "no such vector",
        139,
        &[(62, 0x0d)],
        3,
        103,
        "redo refused: thread 1 record 2 vector 2 BadVector\n",
    ),
    (
        "a commit without its flag",
        139,
        &[(95, 0)],
        3,
        103,
        "redo refused: thread 1 record 2 vector 3 BadFlag\n",
    ),
    (
        "another table",
        139,
        &[(128, 0x32)],
        0,
        139,
        "d1 end scn=11\nd2 s1 c1 scn=11 refused NoTable\nd2 end scn=11\n",
    ),
];

#[test]
fn names_each_damage(rt: HostRuntime) -> Result<(), Fail> {
    for (name, len, damage, status, taken, written) in DAMAGES {
        let feed = damaged(rt.alloc(), FEED.as_slice(), len, damage)?;
        for gives in [1, 7, 100_000] {
            let outside = Outside { gives, ..CALM };
            let wanted = (status, taken, written);
            assert_runs(
                &rt,
                rt.alloc(),
                name,
                &ONE_WORKER,
                feed.as_slice(),
                outside,
                wanted,
            )?;
        }
    }
    Ok(())
}

/// A feed of one delivery, with this redo and these commands of session 1.
fn feed_of(alloc: Global, redo: &[u8], commands: u16, text: &str) -> Result<Vec<u8>, Fail> {
    let mut feed = Vec::from_slice(alloc, &FEED.as_slice()[..15])?;
    push_redo(alloc, &mut feed, redo, 100_000)?;
    let mut command = Vec::from_slice(alloc, &[1])?;
    command.extend_from_slice(text.as_bytes())?;
    for _ in 0..commands {
        push_frame(&mut feed, b'Q', command.as_slice())?;
    }
    push_frame(&mut feed, b'E', &[])?;
    push_frame(&mut feed, b'X', &[])?;
    Ok(feed)
}

#[test]
fn refuses_one_more_than_the_most(rt: HostRuntime) -> Result<(), Fail> {
    let rows: [(&str, &[u8], u16, &str, (u8, u64, &str)); 4] = [
        (
            "an end of the thread",
            b"\0\x0e\0\0\0\0\0\0\0\x09\x01\x0b\0\x0e",
            0,
            "",
            (0, 45, "d1 end scn=9\n"),
        ),
        (
            "a byte after the end",
            b"\0\x0e\0\0\0\0\0\0\0\x09\x01\x0b\0\x0e\0",
            0,
            "",
            (3, 41, "redo refused: thread 1 record 2 AfterEnd\n"),
        ),
        (
            "SCN 2^48",
            b"\0\x0d\0\x01\0\0\0\0\0\0\0\0\x0d",
            0,
            "",
            (3, 39, "redo refused: thread 1 record 1 ScnRange\n"),
        ),
        (
            "1,025 commands",
            b"",
            1025,
            "",
            (2, 6_165, "feed refused: TooManyCommands at byte 6159\n"),
        ),
    ];
    for (name, redo, commands, text, wanted) in rows {
        let feed = feed_of(rt.alloc(), redo, commands, text)?;
        assert_runs(
            &rt,
            rt.alloc(),
            name,
            &ONE_WORKER,
            feed.as_slice(),
            CALM,
            wanted,
        )?;
    }

    let mut feed = Vec::from_slice(rt.alloc(), &FEED.as_slice()[..15])?;
    let mut written = String::new(rt.alloc());
    for delivery in 1..65_537 {
        push_frame(&mut feed, b'E', &[])?;
        if delivery < 65_536 {
            write!(written, "d{delivery} end scn=0\n")?;
        }
    }
    written.push_str("feed refused: TooManyDeliveries at byte 327690\n")?;
    let wanted = (2, 327_695, written.as_str());
    assert_runs(
        &rt,
        rt.alloc(),
        "65,536 deliveries",
        &ONE_WORKER,
        feed.as_slice(),
        CALM,
        wanted,
    )
}

#[test]
fn ends_a_feed_of_no_delivery(rt: HostRuntime) -> Result<(), Fail> {
    let feed = b"IMADG01\nH\0\0\0\x02\x01\x01X\0\0\0\0".as_slice();
    for gives in [1, 7, 100_000] {
        let outside = Outside { gives, ..CALM };
        assert_runs(
            &rt,
            rt.alloc(),
            "no delivery",
            &ONE_WORKER,
            feed,
            outside,
            (0, 20, ""),
        )?;
    }
    Ok(())
}

#[test]
fn names_each_truncation(rt: HostRuntime) -> Result<(), Fail> {
    for len in 0..139 {
        let before = if len < 103 {
            ""
        } else if len < 134 {
            "d1 end scn=11\n"
        } else {
            ANSWER
        };
        let written = format!(in rt.alloc(); "{before}feed refused: Truncated at byte {len}\n")?;
        let feed = damaged(rt.alloc(), FEED.as_slice(), len, &[])?;
        let wanted = (2, len as u64, written.as_str());
        assert_runs(
            &rt,
            rt.alloc(),
            written.as_str(),
            &ONE_WORKER,
            feed.as_slice(),
            CALM,
            wanted,
        )?;
    }
    Ok(())
}

#[test]
fn yields_to_the_outside(rt: HostRuntime) -> Result<(), Fail> {
    for (name, gives, failing_read, takes, failing_write, status, taken, written) in [
        ("one byte a call", 1, 0, 1, 0, 0, 139, ANSWER),
        ("read 3 fails", 100_000, 3, 4_096, 0, 4, 9, ""),
        (
            "read 12 fails",
            100_000,
            12,
            4_096,
            0,
            4,
            103,
            "d1 end scn=11\n",
        ),
        (
            "write 2 fails inside a line",
            100_000,
            0,
            7,
            2,
            5,
            103,
            "d1 end ",
        ),
        (
            "write 2 fails",
            100_000,
            0,
            4_096,
            2,
            5,
            134,
            "d1 end scn=11\n",
        ),
        ("no third write", 100_000, 0, 4_096, 3, 0, 139, ANSWER),
    ] {
        let outside = Outside {
            gives,
            failing_read,
            takes,
            failing_write,
        };
        let wanted = (status, taken, written);
        assert_runs(
            &rt,
            rt.alloc(),
            name,
            &ONE_WORKER,
            FEED.as_slice(),
            outside,
            wanted,
        )?;
    }
    let feed = damaged(rt.alloc(), FEED.as_slice(), 60, &[])?;
    let outside = Outside {
        takes: 5,
        failing_write: 2,
        ..CALM
    };
    let wanted = (5, 60, "feed ");
    assert_runs(
        &rt,
        rt.alloc(),
        "write 2 of a refusal fails",
        &ONE_WORKER,
        feed.as_slice(),
        outside,
        wanted,
    )
}

#[test]
fn accepts_exactly_its_words(rt: HostRuntime) -> Result<(), Fail> {
    let accepted: [&[&str]; 4] = [
        &["step", "--workers", "1"],
        &["step", "--workers", "8"],
        &["step", "--workers=1"],
        &["step", "--workers=8"],
    ];
    for words in accepted {
        assert_runs(
            &rt,
            rt.alloc(),
            "accepted",
            words,
            FEED.as_slice(),
            CALM,
            (0, 139, ANSWER),
        )?;
    }
    let refused: [&[&str]; 22] = [
        &[],
        &["--help"],
        &["audit"],
        &["step"],
        &["step", "--workers"],
        &["step", "--workers", ""],
        &["step", "--workers", "0"],
        &["step", "--workers", "9"],
        &["step", "--workers", "08"],
        &["step", "--workers", "01"],
        &["step", "--workers", "1 "],
        &["step", "--workers=08"],
        &["step", "--workers="],
        &["run", "--workers", "1"],
        &["step", "--seed", "1"],
        &["step", "--workers", "1", "--seed", "1"],
        &["step", "--workers", "1", "--satellite", "1"],
        &["step", "--workers", "1", "--purge", "1"],
        &["step", "--workers", "1", "more"],
        &["step", "--workers", "1", "--workers", "1"],
        &["step", "--workers=1", "--workers=1"],
        &["step", "--workers", "1", "--workers=1"],
    ];
    for words in refused {
        assert_runs(
            &rt,
            rt.alloc(),
            "refused",
            words,
            FEED.as_slice(),
            CALM,
            (1, 0, USAGE),
        )?;
    }
    Ok(())
}

/// Appends a frame.
fn push_frame(feed: &mut Vec<u8>, tag: u8, payload: &[u8]) -> Result<(), Fail> {
    let len = u32::try_from(payload.len())?;
    feed.push(tag)?;
    feed.extend_from_slice(&len.to_be_bytes())?;
    feed.extend_from_slice(payload)?;
    Ok(())
}

/// Appends redo of thread 1 in frames of at most so many bytes.
fn push_redo(alloc: Global, feed: &mut Vec<u8>, redo: &[u8], most: usize) -> Result<(), Fail> {
    for piece in redo.chunks(most.max(1)) {
        let mut payload = Vec::from_slice(alloc, &[1])?;
        payload.extend_from_slice(piece)?;
        push_frame(feed, b'R', payload.as_slice())?;
    }
    Ok(())
}

/// The redo of the feed up to each place in its own delivery, in frames of at most so many bytes,
/// and then its command.
fn cut_feed(alloc: Global, places: &[usize], most: usize) -> Result<Vec<u8>, Fail> {
    let mut feed = Vec::from_slice(alloc, &FEED.as_slice()[..15])?;
    let mut redo = &FEED.as_slice()[21..98];
    let mut from = 0;
    for place in places {
        let (piece, rest) = redo
            .split_at_checked(place.saturating_sub(from))
            .ok_or("no place")?;
        push_redo(alloc, &mut feed, piece, most)?;
        push_frame(&mut feed, b'E', &[])?;
        redo = rest;
        from = *place;
    }
    feed.extend_from_slice(&FEED.as_slice()[103..])?;
    Ok(feed)
}

#[test]
fn takes_redo_cut_anywhere(rt: HostRuntime) -> Result<(), Fail> {
    let rows: [(&str, &[usize], usize, u64, &str); 4] = [
        ("not cut", &[77], 100, 139, ANSWER),
        ("each byte a frame", &[77], 1, 595, ANSWER),
        (
            "behind a record, and inside one",
            &[21, 76, 77],
            100,
            161,
            "d1 end scn=10\nd2 end scn=10\nd3 end scn=11\nd4 s1 c1 scn=11 rows=1 col=0 row=1\n= 1\nd4 end scn=11\n",
        ),
        (
            "the last byte is missing",
            &[76],
            100,
            138,
            "d1 end scn=10\nd2 s1 c1 scn=10 rows=1 col=0 row=0\n= 0\nd2 end scn=10\n",
        ),
    ];
    for (name, places, most, taken, written) in rows {
        let feed = cut_feed(rt.alloc(), places, most)?;
        let wanted = (0, taken, written);
        assert_runs(
            &rt,
            rt.alloc(),
            name,
            &ONE_WORKER,
            feed.as_slice(),
            CALM,
            wanted,
        )?;
    }

    let mut feed = Vec::from_slice(rt.alloc(), &FEED.as_slice()[..15])?;
    let schedule = vec![in rt.alloc(); 0; 33_554_432]?;
    push_frame(&mut feed, b'S', schedule.as_slice())?;
    push_frame(&mut feed, b'E', &[])?;
    push_frame(&mut feed, b'X', &[])?;
    let whole = (0, feed.len() as u64, "d1 end scn=0\n");
    for (failing_read, wanted) in [(0, whole), (9, (4, 65_556, ""))] {
        let outside = Outside {
            failing_read,
            ..CALM
        };
        assert_runs(
            &rt,
            rt.alloc(),
            "32 MiB of schedule bytes",
            &ONE_WORKER,
            feed.as_slice(),
            outside,
            wanted,
        )?;
    }
    Ok(())
}

#[test]
fn answers_session_by_session(rt: HostRuntime) -> Result<(), Fail> {
    const ANSWERS: &str =
        "d1 s1 c1 scn=11 synced\nd1 s1 c2 scn=11 rows=1 col=0 row=1\n= 1\nd1 s2 c1 scn=11 synced\n\
d1 s2 c2 scn=11 refused NoTable\nd1 s2 c3 scn=11 rows=1 col=0 row=1\n= 1\nd1 end scn=11\n";
    let mut feed = damaged(rt.alloc(), FEED.as_slice(), 98, &[(14, 2)])?;
    for command in [
        "\x02SYNC",
        "\x01SYNC",
        "\x02SELECT COUNT FROM t2",
        "\x01SELECT COUNT FROM t1",
        "\x02SELECT COUNT FROM t1",
    ] {
        push_frame(&mut feed, b'Q', command.as_bytes())?;
    }
    push_frame(&mut feed, b'E', &[])?;
    push_frame(&mut feed, b'X', &[])?;
    let taken = feed.len() as u64;
    for takes in [1, 4_096] {
        let outside = Outside { takes, ..CALM };
        let wanted = (0, taken, ANSWERS);
        assert_runs(
            &rt,
            rt.alloc(),
            "two sessions",
            &ONE_WORKER,
            feed.as_slice(),
            outside,
            wanted,
        )?;
    }
    Ok(())
}

/// A name, redo of thread 1 whose second record fails a check, and the line.
type Refusal = (&'static str, &'static [u8], &'static str);

const REFUSALS: [Refusal; 8] = [
    (
        "TxnTwice",
        b"\0\x15\0\0\0\0\0\0\0\x0a\x01\x07\0\x01\0\x01\x01\x01\x01\0\x15\0)\0\0\0\0\0\0\0\x0b\x03\x01\0\0\0\0\0\0\0\x07\x05\0\0\0\0\0\0\0\x07\0\x01\0\0\0\0\0\0\0\x07\0)",
        "redo refused: thread 1 record 2 vector 3 TxnTwice\n",
    ),
    (
        "TxnUnknown",
        b"\0\x15\0\0\0\0\0\0\0\x0a\x01\x07\0\x01\0\x01\x01\x01\x01\0\x15\0%\0\0\0\0\0\0\0\x0b\x01\x02\0\0\0\0\0\0\0\x07\0\x01\0\0\0\x01\x01\0\0\0\0\0\0\0\x05\0%",
        "redo refused: thread 1 record 2 vector 1 TxnUnknown\n",
    ),
    (
        "ObjectTwice",
        b"\0\x15\0\0\0\0\0\0\0\x0a\x01\x07\0\x01\0\x01\x01\x01\x01\0\x15\0\x18\0\0\0\0\0\0\0\x0b\x02\x08\0\x01\x07\0\x01\0\x01\x01\x01\x01\0\x18",
        "redo refused: thread 1 record 2 vector 2 ObjectTwice\n",
    ),
    (
        "NoObject",
        b"\0\x15\0\0\0\0\0\0\0\x0a\x01\x07\0\x01\0\x01\x01\x01\x01\0\x15\0\x11\0\0\0\0\0\0\0\x0b\x01\x09\0\x02\x01\0\x11",
        "redo refused: thread 1 record 2 vector 1 NoObject\n",
    ),
    (
        "BadAddress",
        b"\0\x15\0\0\0\0\0\0\0\x0a\x01\x07\0\x01\0\x01\x01\x01\x01\0\x15\0.\0\0\0\0\0\0\0\x0b\x02\x01\0\0\0\0\0\0\0\x07\x02\0\0\0\0\0\0\0\x07\0\x01\0\x10\0\x01\x01\0\0\0\0\0\0\0\x05\0.",
        "redo refused: thread 1 record 2 vector 2 BadAddress\n",
    ),
    (
        "BadRow",
        b"\0\x15\0\0\0\0\0\0\0\x0a\x01\x07\0\x01\0\x01\x01\x01\x01\0\x15\0(\0\0\0\0\0\0\0\x0b\x02\x01\0\0\0\0\0\0\0\x07\x02\0\0\0\0\0\0\0\x07\0\x01\0\0\0\x01\x02\x01a\0(",
        "redo refused: thread 1 record 2 vector 2 BadRow\n",
    ),
    (
        "NothingToUndo",
        b"\0\x15\0\0\0\0\0\0\0\x0a\x01\x07\0\x01\0\x01\x01\x01\x01\0\x15\0<\0\0\0\0\0\0\0\x0b\x03\x01\0\0\0\0\0\0\0\x07\x02\0\0\0\0\0\0\0\x07\0\x01\0\0\0\x01\x01\0\0\0\0\0\0\0\x05\x04\0\0\0\0\0\0\0\x07\0\x01\0\0\x01\0<",
        "redo refused: thread 1 record 2 vector 3 NothingToUndo\n",
    ),
    (
        "BadFlag",
        b"\0\x15\0\0\0\0\0\0\0\x0a\x01\x07\0\x01\0\x01\x01\x01\x01\0\x15\08\0\0\0\0\0\0\0\x0b\x03\x01\0\0\0\0\0\0\0\x07\x02\0\0\0\0\0\0\0\x07\0\x01\0\0\0\x01\x01\0\0\0\0\0\0\0\x05\x05\0\0\0\0\0\0\0\x07\0\08",
        "redo refused: thread 1 record 2 vector 3 BadFlag\n",
    ),
];

#[test]
fn refuses_redo_that_fails_a_check(rt: HostRuntime) -> Result<(), Fail> {
    for (name, redo, written) in REFUSALS {
        let feed = feed_of(rt.alloc(), redo, 1, "SYNC")?;
        let taken = (feed.len() as u64).saturating_sub(5);
        assert_runs(
            &rt,
            rt.alloc(),
            name,
            &ONE_WORKER,
            feed.as_slice(),
            CALM,
            (3, taken, written),
        )?;
    }
    Ok(())
}

/// Redo that makes `t1` of a number and a text, with five rows.
const ROWS: &[u8] =
    b"\0\x16\0\0\0\0\0\0\0\x0a\x01\x07\0\x01\0\x01\x01\x02\x01\x02\0\x16\0\x9d\0\0\0\0\0\0\0\x0b\x07\x01\0\0\0\0\0\0\0\x07\x02\0\0\0\0\0\0\0\x07\0\x01\0\0\0\x02\x01\0\0\0\0\0\0\0\x01\x02\x01a\x02\0\0\0\0\0\0\0\x07\0\x01\0\0\x01\x02\x01\0\0\0\0\0\0\0\x02\x02\x01b\x02\0\0\0\0\0\0\0\x07\0\x01\0\0\x02\x02\x01\0\0\0\0\0\0\0\x05\x02\x01a\x02\0\0\0\0\0\0\0\x07\0\x01\0\0\x03\x02\0\x02\x01b\x02\0\0\0\0\0\0\0\x07\0\x01\0\0\x04\x02\x01\0\0\0\0\0\0\0\x07\0\x05\0\0\0\0\0\0\0\x07\x01\0\x9d";

/// Redo with each sort of vector: `t1` has one row and one column more, and `t2` is dropped.
const EACH_SORT: &[u8] =
    b"\0\x1d\0\0\0\0\0\0\0\x0a\x02\x07\0\x01\0\x01\x01\x01\x01\x07\0\x02\0\x01\0\x01\x01\0\x1d\0\x84\0\0\0\0\0\0\0\x0b\x07\x01\0\0\0\0\0\0\0\x07\x02\0\0\0\0\0\0\0\x07\0\x01\0\0\0\x01\x01\0\0\0\0\0\0\0\x01\x02\0\0\0\0\0\0\0\x07\0\x01\0\0\x01\x01\x01\0\0\0\0\0\0\0\x02\x04\0\0\0\0\0\0\0\x07\0\x01\0\0\x01\x02\0\0\0\0\0\0\0\x07\0\x01\0\0\x02\x01\x01\0\0\0\0\0\0\0\x03\x03\0\0\0\0\0\0\0\x07\0\x01\0\0\x02\x05\0\0\0\0\0\0\0\x07\x01\0\x84\0A\0\0\0\0\0\0\0\x0c\x06\x01\0\0\0\0\0\0\0\x08\x02\0\0\0\0\0\0\0\x08\0\x01\0\0\0\x01\x01\0\0\0\0\0\0\0\x09\x06\0\0\0\0\0\0\0\x08\x09\0\x01\x02\x0a\0\x01\x08\0\x02\0A\0\x0e\0\0\0\0\0\0\0\x0d\x01\x0b\0\x0e";

/// A name, redo of thread 1, commands of session 1, and the lines.
type Run = (
    &'static str,
    &'static [u8],
    &'static [&'static str],
    &'static str,
);

const RUNS: [Run; 8] = [
    (
        "a group",
        ROWS,
        &["SYNC", "SELECT COUNT, SUM(c1), MAX(c1) FROM t1 GROUP BY c2"],
        "d1 s1 c1 scn=11 synced\nd1 s1 c2 scn=11 rows=3 col=0 row=5\n= NULL|1|7|7\n= 'a'|2|6|5\n= 'b'|2|2|2\nd1 end scn=11\n",
    ),
    (
        "conditions",
        ROWS,
        &["SYNC", "SELECT * FROM t1 WHERE c1 > 1 AND c2 <> 'b'"],
        "d1 s1 c1 scn=11 synced\nd1 s1 c2 scn=11 rows=1 col=0 row=5\n= 5|'a'\nd1 end scn=11\n",
    ),
    (
        "the SCN",
        ROWS,
        &["SYNC", "SHOW SCN", "SYNC"],
        "d1 s1 c1 scn=11 synced\nd1 s1 c2 scn=11 shown\nd1 s1 c3 scn=11 synced\nd1 end scn=11\n",
    ),
    (
        "no command among commands",
        ROWS,
        &["SYNC", "", "SELECT COUNT FROM t01", "ABORTS", "SHOW SCN"],
        "d1 s1 c1 scn=11 synced\nd1 s1 c2 scn=11 refused BadQuery byte=0\n\
d1 s1 c3 scn=11 refused BadQuery byte=19\nd1 s1 c4 scn=11 refused BadQuery byte=5\nd1 s1 c5 scn=11 shown\nd1 end scn=11\n",
    ),
    (
        "refused queries",
        ROWS,
        &[
            "SYNC",
            "SELECT * FROM t2",
            "SELECT SUM(c3) FROM t1",
            "SELECT SUM(c2) FROM t1",
        ],
        "d1 s1 c1 scn=11 synced\nd1 s1 c2 scn=11 refused NoTable\nd1 s1 c3 scn=11 refused NoColumn\n\
d1 s1 c4 scn=11 refused WrongType\nd1 end scn=11\n",
    ),
    (
        "each sort of vector",
        EACH_SORT,
        &["SYNC", "SELECT * FROM t1", "SELECT COUNT FROM t2"],
        "d1 s1 c1 scn=13 synced\nd1 s1 c2 scn=13 rows=1 col=0 row=1\n= 1|NULL\nd1 s1 c3 scn=13 refused NoTable\nd1 end scn=13\n",
    ),
    (
        "a population among commands",
        ROWS,
        &["SYNC", "POPULATE t1", "SYNC"],
        "d1 s1 c1 scn=11 synced\nd1 s1 c2 scn=11 populated units=1\nd1 s1 c3 scn=11 synced\nd1 end scn=11\n",
    ),
    (
        "an abort among commands",
        ROWS,
        &["SYNC", "ABORT", "SYNC"],
        "d1 s1 c1 scn=11 synced\nd1 s1 c2 scn=11 aborted\nd1 s1 c3 down\nd1 end scn=11\n",
    ),
];

/// Ends a delivery, and then the feed.
fn push_ends(feed: &mut Vec<u8>) -> Result<(), Fail> {
    push_frame(feed, b'E', &[])?;
    push_frame(feed, b'X', &[])
}

/// Appends a command of a session.
fn push_command(alloc: Global, feed: &mut Vec<u8>, session: u8, text: &str) -> Result<(), Fail> {
    let mut payload = Vec::from_slice(alloc, &[session])?;
    payload.extend_from_slice(text.as_bytes())?;
    push_frame(feed, b'Q', payload.as_slice())
}

/// Appends commands of session 1.
fn push_commands(alloc: Global, feed: &mut Vec<u8>, texts: &[&str]) -> Result<(), Fail> {
    for text in texts {
        push_command(alloc, feed, 1, text)?;
    }
    Ok(())
}

#[test]
fn runs_whole_deliveries(rt: HostRuntime) -> Result<(), Fail> {
    for (name, redo, commands, written) in RUNS {
        let mut feed = Vec::from_slice(rt.alloc(), &FEED.as_slice()[..15])?;
        push_redo(rt.alloc(), &mut feed, redo, 100)?;
        push_commands(rt.alloc(), &mut feed, commands)?;
        push_ends(&mut feed)?;
        let taken = feed.len() as u64;
        assert_runs(
            &rt,
            rt.alloc(),
            name,
            &ONE_WORKER,
            feed.as_slice(),
            CALM,
            (0, taken, written),
        )?;
    }
    Ok(())
}

/// A feed of two threads and two sessions with two deliveries. The second thread holds the frontier
/// back until its last record comes.
const TWO_THREADS: [u8; 236] = *b"IMADG01\nH\0\0\0\x02\x02\x02\
R\0\0\0\x16\x01\0\x15\0\0\0\0\0\0\0\x0a\x01\x07\0\x01\0\x01\x01\x01\x01\0\x15\
R\0\0\09\x02\08\0\0\0\0\0\0\0\x0a\x03\x01\0\0\0\0\0\0\0\x08\x02\0\0\0\0\0\0\0\x08\0\x01\0\0\0\x01\x01\0\0\0\0\0\0\0\x05\x05\0\0\0\0\0\0\0\x08\x01\08\
R\0\0\09\x01\08\0\0\0\0\0\0\0\x0c\x03\x01\0\0\0\0\0\0\0\x07\x02\0\0\0\0\0\0\0\x07\0\x01\0\0\x01\x01\x01\0\0\0\0\0\0\0\x06\x05\0\0\0\0\0\0\0\x07\x01\08\
E\0\0\0\0R\0\0\0\x0e\x02\0\x0d\0\0\0\0\0\0\0\x0c\0\0\x0d\
Q\0\0\0\x15\x02SELECT COUNT FROM t1Q\0\0\0\x05\x01SYNC\
E\0\0\0\0X\0\0\0\0";

/// A name, the bytes that are others, and how the run ends.
type TwoDamage = (&'static str, &'static [(usize, u8)], u8, u64, &'static str);

const TWO_ANSWERS: &str = "d1 end scn=10\nd2 s1 c1 scn=12 synced\n\
d2 s2 c1 scn=10 rows=1 col=0 row=1\n= 1\nd2 end scn=12\n";

const TWO_DAMAGES: [TwoDamage; 13] = [
    ("none", &[], 0, 236, TWO_ANSWERS),
    (
        "another trailer of thread 2",
        &[(103, 0x39)],
        3,
        171,
        "redo refused: thread 2 record 1 BadTrailer\n",
    ),
    (
        "other trailers of both threads",
        &[(103, 0x39), (165, 0x39)],
        3,
        171,
        "redo refused: thread 1 record 2 BadTrailer\n",
    ),
    (
        "an unsound entry, and a bad record behind it",
        &[(101, 0), (165, 0x39)],
        3,
        171,
        "redo refused: thread 1 record 2 BadTrailer\n",
    ),
    (
        "no such vector in thread 2",
        &[(59, 0x0d)],
        3,
        171,
        "redo refused: thread 2 record 1 vector 1 BadVector\n",
    ),
    (
        "an unsound entry of thread 2",
        &[(101, 0)],
        3,
        171,
        "redo refused: thread 2 record 1 vector 3 BadFlag\n",
    ),
    (
        "unsound entries of both threads",
        &[(101, 0), (163, 0)],
        3,
        171,
        "redo refused: thread 2 record 1 vector 3 BadFlag\n",
    ),
    (
        "an unsound entry above the frontier",
        &[(163, 0)],
        3,
        231,
        "d1 end scn=10\nredo refused: thread 1 record 2 vector 3 BadFlag\n",
    ),
    (
        "an SCN of thread 2 that stands still",
        &[(186, 10)],
        3,
        231,
        "d1 end scn=10\nredo refused: thread 2 record 2 ScnOrder\n",
    ),
    (
        "redo of thread 1 that comes as that of thread 2",
        &[(109, 2)],
        3,
        231,
        "d1 end scn=10\nredo refused: thread 2 record 3 ScnOrder\n",
    ),
    (
        "redo of thread 3",
        &[(176, 3)],
        2,
        177,
        "d1 end scn=10\nfeed refused: BadThread at byte 171\n",
    ),
    (
        "a command of session 3",
        &[(195, 3)],
        2,
        196,
        "d1 end scn=10\nfeed refused: BadSession at byte 190\n",
    ),
    (
        "one thread",
        &[(13, 1)],
        2,
        48,
        "feed refused: BadThread at byte 42\n",
    ),
];

#[test]
fn names_each_damage_of_two_threads(rt: HostRuntime) -> Result<(), Fail> {
    for (name, damage, status, taken, written) in TWO_DAMAGES {
        let feed = damaged(rt.alloc(), TWO_THREADS.as_slice(), 236, damage)?;
        for gives in [1, 100_000] {
            let outside = Outside { gives, ..CALM };
            assert_runs(
                &rt,
                rt.alloc(),
                name,
                &ONE_WORKER,
                feed.as_slice(),
                outside,
                (status, taken, written),
            )?;
        }
    }
    Ok(())
}

/// A record at SCN 10 that makes an object.
fn push_create(alloc: Global, feed: &mut Vec<u8>, thread: u8, obj: u8) -> Result<(), Fail> {
    let mut payload = Vec::from_slice(alloc, &[thread])?;
    payload.extend_from_slice(&FEED.as_slice()[21..34])?;
    payload.push(obj)?;
    payload.extend_from_slice(&FEED.as_slice()[35..42])?;
    push_frame(feed, b'R', payload.as_slice())
}

#[test]
fn runs_eight_threads_and_sessions(rt: HostRuntime) -> Result<(), Fail> {
    let mut feed = Vec::from_slice(rt.alloc(), b"IMADG01\nH\0\0\0\x02\x08\x08")?;
    let mut written = String::new(rt.alloc());
    for place in 0..8 {
        push_create(rt.alloc(), &mut feed, 8 - place, 1 + place)?;
    }
    for place in 0..8 {
        let session = 8 - place;
        push_command(rt.alloc(), &mut feed, session, "SYNC")?;
        let text = format!(in rt.alloc(); "SELECT COUNT FROM t{session}")?;
        push_command(rt.alloc(), &mut feed, session, text.as_str())?;
        let session = 1 + place;
        write!(
            written,
            "d1 s{session} c1 scn=10 synced\nd1 s{session} c2 scn=10 rows=1 col=0 row=0\n= 0\n"
        )?;
    }
    written.push_str("d1 end scn=10\n")?;
    push_ends(&mut feed)?;
    let taken = feed.len() as u64;
    for workers in ["1", "2", "8"] {
        let words = ["step", "--workers", workers];
        assert_runs(
            &rt,
            rt.alloc(),
            "eight",
            &words,
            feed.as_slice(),
            CALM,
            (0, taken, written.as_str()),
        )?;
    }
    Ok(())
}
