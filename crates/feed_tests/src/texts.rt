use feed_text::assemble::assemble;
use feed_text::reason::Reason;
use feed_text::refused::TextRefused;
use feed_text::show::show;
use std::test::Fail;

/// A feed of one thread and one session with two deliveries: two records in one frame, and a command.
const FEED: &[u8] = b"IMADG01\nH\0\0\0\x02\x01\x01\
R\0\0\0\x4e\x01\0\x15\0\0\0\0\0\0\0\x0a\x01\x07\0\x01\0\x01\x01\x01\x01\0\x15\
\0\x38\0\0\0\0\0\0\0\x0b\x03\x01\0\0\0\0\0\0\0\x07\
\x02\0\0\0\0\0\0\0\x07\0\x01\0\0\0\x01\x01\0\0\0\0\0\0\0\x05\
\x05\0\0\0\0\0\0\0\x07\x01\0\x38\
E\0\0\0\0Q\0\0\0\x15\x01SELECT COUNT FROM t1E\0\0\0\0X\0\0\0\0";

const TEXT: &str = "threads 1 sessions 1\n\
1@10: Create t1 x1 im (int) | @11: Begin 7; Put 7 t1.0.0 (5); Commit 7 +\n\
end\n\
session 1: SELECT COUNT FROM t1\n\
end\n\
stop\n";

#[test]
fn shows_and_assembles_a_feed(rt: HostRuntime) -> Result<(), Fail> {
    let text = show(rt.alloc(), FEED)?;
    assert_eq!(rt; text.as_slice(), TEXT.as_bytes());
    let feed = assemble(rt.alloc(), TEXT.as_bytes())?;
    assert_eq!(rt; feed.as_slice(), FEED);
    Ok(())
}

/// Lines that are shown as they are written: each kind of line, of vector and of value.
const LINES: [(&str, &str); 20] = [
    ("no vector", "1@281474976710655:"),
    ("records without vectors", "2@1: | @2: Begin 1 | @3:"),
    ("an abort", "1@1: Abort 18446744073709551615"),
    ("a delete", "1@1: Delete 7 t65535.65535.255"),
    ("an undo", "1@1: Undo 7 t1.0.0"),
    ("a commit", "1@1: Commit 7 -"),
    ("a create", "1@1: Create t1 x256 plain (int, text)"),
    ("a drop", "1@1: DropObject t1"),
    ("a column", "1@1: AddColumn t1 text"),
    ("out of memory", "1@1: NoInMemory t1"),
    ("the end of a thread", "1@1: EndThread"),
    ("two vectors", "1@1: Begin 1; Begin 2"),
    (
        "values",
        "1@1: Put 7 t1.0.0 (NULL, '', 'a; b, (c)', 0, -1, 9223372036854775807, -9223372036854775808)",
    ),
    ("redo", "redo 1: 00*2 0a ff*255"),
    ("no redo", "redo 8:"),
    ("a command", "session 1: SELECT * FROM t1 WHERE c1 = 'x'"),
    ("no command", "session 1: "),
    ("schedule", "schedule 01 02*3 01"),
    ("an end", "end"),
    ("a stop", "stop"),
];

#[test]
fn shows_each_line_as_it_is_written(rt: HostRuntime) -> Result<(), Fail> {
    for (name, line) in LINES {
        let whole = format!(in rt.alloc(); "threads 8 sessions 8\n{line}\n")?;
        let feed = assemble(rt.alloc(), whole.as_bytes())?;
        let text = show(rt.alloc(), feed.as_slice())?;
        let again = assemble(rt.alloc(), text.as_slice())?;
        assert_eq!(rt; again.as_slice(), feed.as_slice(), "{name}");
        let lines = text.as_slice();
        assert!(rt; lines.len() >= whole.len(), "{name}");
        assert_eq!(rt; &lines[..whole.len()], whole.as_bytes(), "{name}");
    }
    Ok(())
}

/// Texts that break the notation: the number of the line, and the reason.
const BROKEN: [(&str, u64, Reason); 24] = [
    ("start", 1, Reason::NoLine),
    ("\nends", 2, Reason::NoLine),
    ("# a comment\n#\n end", 3, Reason::NoLine),
    ("threads 1 sessions 256", 1, Reason::NoOpening),
    ("threads 1", 1, Reason::NoOpening),
    ("threads 1 sessions 1 ", 1, Reason::NoOpening),
    ("session 1 SYNC", 1, Reason::NoCommand),
    ("session 256: SYNC", 1, Reason::NoCommand),
    ("redo 1: 0", 1, Reason::NoBytes),
    ("redo 1: 00  00", 1, Reason::NoBytes),
    ("redo 1: 0A", 1, Reason::NoBytes),
    ("redo 1:00", 1, Reason::NoBytes),
    ("schedule 00*", 1, Reason::NoBytes),
    ("bytes 00*x", 1, Reason::NoBytes),
    ("1@1: Begin 0", 1, Reason::NoRecords),
    ("1@1: Begin 18446744073709551616", 1, Reason::NoRecords),
    ("1@1: Begin 1;", 1, Reason::NoRecords),
    ("1@1: Put 1 t0.0.0 (1)", 1, Reason::NoRecords),
    ("1@1: Put 1 t1.0.256 (1)", 1, Reason::NoRecords),
    ("1@1: Put 1 t1.0.0 (-0)", 1, Reason::NoRecords),
    ("1@1: Put 1 t1.0.0 ('a)", 1, Reason::NoRecords),
    ("1@1: Commit 1", 1, Reason::NoRecords),
    ("1@0: Commit 1 +", 1, Reason::NoSpelling),
    ("1@1: EndThread; EndThread", 1, Reason::NoSpelling),
];

#[test]
fn names_the_line_that_breaks_the_notation(rt: HostRuntime) {
    for (text, number, reason) in BROKEN {
        let refused = match assemble(rt.alloc(), text.as_bytes()) {
            Ok(_) => None,
            Err(refused) => Some(refused),
        };
        assert_eq!(rt;
            refused,
            Some(TextRefused::Line { number, reason }),
            "{text}"
        );
    }
}

/// Bytes that are no whole feed, by how long they are and what is another byte, and the line that
/// names the fault.
const DAMAGES: [(&str, usize, usize, u8, &str); 8] = [
    (
        "nothing",
        0,
        0,
        b'I',
        "# feed refused: Truncated at byte 0\n",
    ),
    (
        "a magic",
        139,
        0,
        b'J',
        "# feed refused: BadMagic at byte 0\n",
    ),
    (
        "no header",
        139,
        8,
        b'R',
        "# feed refused: BadOrder at byte 8\n",
    ),
    (
        "a cut",
        120,
        0,
        b'I',
        "# feed refused: Truncated at byte 120\n",
    ),
    (
        "a tag",
        139,
        98,
        b'Z',
        "# feed refused: BadTag at byte 98\n",
    ),
    (
        "a session",
        139,
        108,
        2,
        "# feed refused: BadSession at byte 103\n",
    ),
    (
        "a thread",
        139,
        20,
        2,
        "# feed refused: BadThread at byte 15\n",
    ),
    (
        "a stop",
        139,
        98,
        b'X',
        "# feed refused: BadOrder at byte 98\n",
    ),
];

/// Whether some bytes stand in others.
fn contains(bytes: &[u8], part: &[u8]) -> bool {
    for at in 0..bytes.len() {
        if bytes[at..].starts_with(part) {
            return true;
        }
    }
    false
}

#[test]
fn shows_what_is_no_feed(rt: HostRuntime) -> Result<(), Fail> {
    for (name, len, at, byte, line) in DAMAGES {
        let mut feed = Vec::from_slice(rt.alloc(), FEED)?;
        feed.truncate(len);
        if at < feed.len() {
            feed[at] = byte;
        }
        let text = show(rt.alloc(), feed.as_slice())?;
        assert!(rt; contains(text.as_slice(), line.as_bytes()), "{name}");
        let again = assemble(rt.alloc(), text.as_slice())?;
        assert_eq!(rt; again.as_slice(), feed.as_slice(), "{name}");
    }
    Ok(())
}
