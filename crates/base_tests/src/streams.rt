use adg_base::memory::Memory;
use adg_io::gate::OpenGate;
use adg_io::memory_sink::MemSink;
use adg_io::memory_source::MemSource;
use adg_io::outside::{Failed, Gate, Sink, Source};
use adg_io::standard::{StdSink, StdSource};
use adg_io::transfer::{FillEnd, Filled, Written, fill, write_whole};
use std::alloc::Global;
use std::io;
use std::io::{ErrorKind, Read, Write};
use std::test::Fail;

/// What a read or a write answered.
type Answer = Result<usize, Failed>;

const FAILED: Answer = Err(Failed);

fn source_of(
    alloc: Global,
    text: &str,
    most: usize,
    failing: [u64; 2],
) -> Result<MemSource, Memory> {
    let bytes = Vec::from_slice(alloc, text.as_bytes())?;
    Ok(MemSource::new(bytes, most, Vec::from_slice(alloc, &failing)?))
}

fn sink_of(alloc: Global, room: usize, most: usize, failing: [u64; 2]) -> Result<MemSink, Memory> {
    MemSink::new(alloc, room, most, Vec::from_slice(alloc, &failing)?)
}

fn four_reads<R: Source>(source: &mut R) -> [Answer; 4] {
    let mut piece = [0; 4];
    [
        source.read(&mut piece),
        source.read(&mut piece),
        source.read(&mut piece),
        source.read(&mut piece),
    ]
}

fn four_writes<K: Sink>(sink: &mut K) -> [Answer; 4] {
    [
        sink.write(b"abcd"),
        sink.write(b"abcd"),
        sink.write(b"abcd"),
        sink.write(b"abcd"),
    ]
}

// Pieces of four bytes, a source of five bytes, and a sink with room for five.
#[test]
fn calls_in_memory(rt: HostRuntime) -> Result<(), Fail> {
    let table = [
        (
            9,
            [0, 0],
            [Ok(4), Ok(1), Ok(0), Ok(0)],
            "",
            [Ok(4), Ok(1), FAILED, FAILED],
            "abcda",
        ),
        (
            2,
            [2, 0],
            [Ok(2), FAILED, Ok(2), Ok(1)],
            "",
            [Ok(2), FAILED, Ok(2), Ok(1)],
            "ababa",
        ),
        (
            0,
            [4, 9],
            [Ok(1), Ok(1), Ok(1), FAILED],
            "de",
            [Ok(1), Ok(1), Ok(1), FAILED],
            "aaa",
        ),
        (
            3,
            [3, 1],
            [FAILED, Ok(3), FAILED, Ok(2)],
            "",
            [FAILED, Ok(3), FAILED, Ok(2)],
            "abcab",
        ),
    ];
    for (most, failing, given, left, taken, held) in table {
        let mut source = source_of(rt.alloc(), "abcde", most, failing)?;
        assert_eq!(rt; four_reads(&mut source), given);
        assert_eq!(rt; source.left(), left.as_bytes());
        assert_eq!(rt; source.read(&mut []), Ok(0));

        let mut sink = sink_of(rt.alloc(), 5, most, failing)?;
        assert_eq!(rt; four_writes(&mut sink), taken);
        assert_eq!(rt; sink.held(), held.as_bytes());
        assert_eq!(rt; sink.write(&[]), Ok(0));
    }
    Ok(())
}

// A piece of four bytes, filled from a source and written to a sink.
#[test]
fn pieces_in_memory(rt: HostRuntime) -> Result<(), Fail> {
    let table = [
        ("abcde", 2, [0, 0], 4, FillEnd::Whole, "abcd", "e", "wxyz"),
        ("abcd", 9, [2, 3], 4, FillEnd::Whole, "abcd", "", "wxyz"),
        ("abc", 2, [0, 0], 3, FillEnd::AtEnd, "abc.", "", "wxy"),
        ("abcde", 1, [3, 0], 2, FillEnd::Failed, "ab..", "cde", "wx"),
        ("", 1, [1, 0], 0, FillEnd::Failed, "....", "", ""),
    ];
    for (text, most, failing, count, ending, filled, left, held) in table {
        let mut source = source_of(rt.alloc(), text, most, failing)?;
        let mut piece = *b"....";
        assert_eq!(rt; fill(&mut source, &mut piece), Filled { count, ending });
        assert_eq!(rt; piece.as_slice(), filled.as_bytes());
        assert_eq!(rt; source.left(), left.as_bytes());

        let mut sink = sink_of(rt.alloc(), text.len(), most, failing)?;
        let whole = ending == FillEnd::Whole;
        assert_eq!(rt; write_whole(&mut sink, b"wxyz"), Written { count, whole });
        assert_eq!(rt; sink.held(), held.as_bytes());
    }
    Ok(())
}

/// A reader and writer that gives and takes one byte a call, and fails at one of its calls.
#[derive(Drop)]
struct Once {
    calls: u32,
    failing: u32,
    kind: ErrorKind,
}

impl Once {
    fn call(&mut self) -> io::Result<usize> {
        self.calls = self.calls.saturating_add(1);
        if self.calls == self.failing {
            Err(self.kind.into())
        } else {
            Ok(1)
        }
    }
}

impl Read for Once {
    fn read(&mut self, into: &mut [u8]) -> io::Result<usize> {
        let count = self.call()?;
        Ok(count.min(into.len()))
    }
}

impl Write for Once {
    fn write(&mut self, piece: &[u8]) -> io::Result<usize> {
        let count = self.call()?;
        Ok(count.min(piece.len()))
    }

    fn flush(&mut self) -> io::Result<()> {
        Ok(())
    }
}

// A failed call is told, is not tried again, and the call after it goes on.
#[test]
fn a_fault_of_std_is_told_once(rt: HostRuntime) {
    for kind in [
        ErrorKind::Interrupted,
        ErrorKind::WouldBlock,
        ErrorKind::Other,
    ] {
        let mut once = Once {
            calls: 0,
            failing: 3,
            kind,
        };
        let mut source = StdSource::new(&mut once);
        let read = four_reads(&mut source);
        assert_eq!(rt; read, [Ok(1), Ok(1), FAILED, Ok(1)]);
        assert_eq!(rt; once.calls, 4);

        let mut once = Once {
            calls: 0,
            failing: 3,
            kind,
        };
        let mut sink = StdSink::new(&mut once);
        let wrote = four_writes(&mut sink);
        assert_eq!(rt; wrote, [Ok(1), Ok(1), FAILED, Ok(1)]);
        assert_eq!(rt; once.calls, 4);

        let mut once = Once {
            calls: 0,
            failing: 3,
            kind,
        };
        let mut piece = [0; 4];
        let filled = fill(&mut StdSource::new(&mut once), &mut piece);
        let ending = FillEnd::Failed;
        assert_eq!(rt; filled, Filled { count: 2, ending });
        assert_eq!(rt; once.calls, 3);

        let mut once = Once {
            calls: 0,
            failing: 3,
            kind,
        };
        let written = write_whole(&mut StdSink::new(&mut once), b"abcd");
        assert_eq!(rt;
            written,
            Written {
                count: 2,
                whole: false
            }
        );
        assert_eq!(rt; once.calls, 3);
    }
}

// Readers and writers of std that hold bytes: a writer that is full is a fault.
#[test]
fn pieces_over_std(rt: HostRuntime) {
    let mut piece = [0; 4];
    let mut source = StdSource::new(b"abcde".as_slice());
    let (whole, at_end) = (FillEnd::Whole, FillEnd::AtEnd);
    assert_eq!(rt;
        fill(&mut source, &mut piece),
        Filled {
            count: 4,
            ending: whole
        }
    );
    assert_eq!(rt; piece.as_slice(), b"abcd".as_slice());
    assert_eq!(rt;
        fill(&mut source, &mut piece),
        Filled {
            count: 1,
            ending: at_end
        }
    );

    let mut bytes = Vec::new(rt.alloc());
    let written = write_whole(&mut StdSink::new(&mut bytes), b"abcd");
    assert_eq!(rt;
        written,
        Written {
            count: 4,
            whole: true
        }
    );
    assert_eq!(rt; bytes.as_slice(), b"abcd".as_slice());
    let mut room = [0; 3];
    let written = write_whole(&mut StdSink::new(room.as_mut_slice()), b"abcd");
    assert_eq!(rt;
        written,
        Written {
            count: 3,
            whole: false
        }
    );
    OpenGate.pass(&rt, 0, 0);
}
