use adg_io::memory_sink::MemSink;
use adg_io::memory_source::MemSource;
use feed_text::top::run;
use std::alloc::Global;
use std::test::Fail;

const TEXT: &str = "threads 2 sessions 3\nend\nend\nstop\n";

const FEED: &str = "IMADG01\nH\0\0\0\x02\x02\x03E\0\0\0\0E\0\0\0\0X\0\0\0\0";

const BROKEN: &str = "threads 2 sessions 3\nends\n";

const USAGE: &str = "usage: imadg_feed assemble|show\n";

/// The numbers of the calls that fail, 0 for none: of the source, of the sink and of the sink for errors.
#[derive(Clone, Copy)]
struct Failing {
    read: u64,
    write: u64,
    line: u64,
}

const NONE: Failing = Failing {
    read: 0,
    write: 0,
    line: 0,
};

const SECOND_READ: Failing = Failing {
    read: 2,
    write: 0,
    line: 0,
};

const FIRST_WRITE: Failing = Failing {
    read: 0,
    write: 1,
    line: 0,
};

const SECOND_WRITE: Failing = Failing {
    read: 0,
    write: 2,
    line: 0,
};

const SECOND_OF_LINE: Failing = Failing {
    read: 0,
    write: 0,
    line: 2,
};

/// A name, the words, what the source has, which calls fail, the status, what the sink gets, and what
/// the sink for errors gets.
type Run = (
    &'static str,
    &'static [&'static str],
    &'static str,
    Failing,
    u8,
    &'static str,
    &'static str,
);

static RUNS: [Run; 12] = [
    ("a text", &["assemble"], TEXT, NONE, 0, FEED, ""),
    ("a feed", &["show"], FEED, NONE, 0, TEXT, ""),
    ("no word", &[], TEXT, NONE, 1, "", USAGE),
    ("two words", &["show", "show"], FEED, NONE, 1, "", USAGE),
    ("another word", &["shown"], FEED, NONE, 1, "", USAGE),
    (
        "a text that is refused",
        &["assemble"],
        BROKEN,
        NONE,
        1,
        "",
        "line 2: no line of the notation\n",
    ),
    ("a read fails", &["assemble"], TEXT, SECOND_READ, 4, "", ""),
    (
        "the first write fails",
        &["assemble"],
        TEXT,
        FIRST_WRITE,
        5,
        "",
        "",
    ),
    (
        "a write of a feed fails",
        &["assemble"],
        TEXT,
        SECOND_WRITE,
        5,
        "IMADG01\n",
        "",
    ),
    (
        "a write of a text fails",
        &["show"],
        FEED,
        SECOND_WRITE,
        5,
        "threads ",
        "",
    ),
    (
        "the line of a refusal fails",
        &["assemble"],
        BROKEN,
        SECOND_OF_LINE,
        5,
        "",
        "line 2: ",
    ),
    (
        "the usage line fails",
        &[],
        TEXT,
        SECOND_OF_LINE,
        5,
        "",
        "usage: i",
    ),
];

fn words_of(alloc: Global, words: &[&str]) -> Result<Vec<String>, Fail> {
    let mut owned = Vec::new(alloc);
    for word in words {
        let mut text = String::new(alloc);
        text.push_str(word)?;
        owned.push(text)?;
    }
    Ok(owned)
}

fn source_of(alloc: Global, input: &str, failing: u64) -> Result<MemSource, Fail> {
    let failing = Vec::from_slice(alloc, &[failing])?;
    Ok(MemSource::new(Vec::from_slice(alloc, input.as_bytes())?, 64, failing))
}

fn sink_of(alloc: Global, failing: u64) -> Result<MemSink, Fail> {
    Ok(MemSink::new(alloc, 100, 8, Vec::from_slice(alloc, &[failing])?)?)
}

#[test]
fn ends_in_each_way(rt: HostRuntime) -> Result<(), Fail> {
    for (name, words, input, failing, status, output, line) in RUNS {
        let words = words_of(rt.alloc(), words)?;
        let mut source = source_of(rt.alloc(), input, failing.read)?;
        let mut sink = sink_of(rt.alloc(), failing.write)?;
        let mut errors = sink_of(rt.alloc(), failing.line)?;
        let ended = run(
            rt.alloc(),
            words.as_slice(),
            &mut source,
            &mut sink,
            &mut errors,
        );
        assert_eq!(rt; ended.code(), status, "{name}");
        assert_eq!(rt; sink.held(), output.as_bytes(), "{name}");
        assert_eq!(rt; errors.held(), line.as_bytes(), "{name}");
    }
    Ok(())
}
