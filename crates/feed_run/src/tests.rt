use crate::outcome::{Outcome, Status};
use crate::refusal::Refusal;
use crate::run::{refuse_words, run_feed};
use crate::standby::{Standby, Unanswered};
use crate::telling::conclude;
use adg_base::list::Bytes;
use adg_base::memory::Memory;
use adg_io::memory_sink::MemSink;
use adg_io::memory_source::MemSource;
use adg_model::delivery::RawDelivery;
use adg_model::fault::{CheckKind, FrameKind, RedoFault, RedoKind};
use std::alloc::Global;
use std::test::Fail;

/// A standby that answers each delivery with the words that it was given. It wants memory for eight
/// threads, and for a delivery with schedule bytes.
#[derive(Drop)]
struct Parrot<'a> {
    words: &'a [u8],
}

impl<'a> Standby for Parrot<'a> {
    type Setup = &'a [u8];

    ghost answered = { λ parrot words threads sessions deliveries written. Unit {0} };

    fn begin(
        _alloc: Global,
        words: &'a [u8],
        threads: u8,
        _sessions: u8,
    ) -> Result<Parrot<'a>, Memory> {
        match threads {
            8 => Err(Memory),
            _ => Ok(Parrot { words }),
        }
    }

    fn deliver(&mut self, alloc: Global, delivery: RawDelivery) -> Result<Bytes, Unanswered> {
        if delivery.schedule.len() > 0 {
            return Err(Unanswered::Memory);
        }
        match Vec::from_slice(alloc, self.words) {
            Ok(lines) => Ok(Bytes::from_vec(lines)),
            Err(_) => Err(Unanswered::Memory),
        }
    }
}

fn sink_of(alloc: Global, failing: u64) -> Result<MemSink, Fail> {
    Ok(MemSink::new(alloc, 100, 8, Vec::from_slice(alloc, &[failing])?)?)
}

/// The opening of a feed of two threads and three sessions, and two deliveries of nothing.
const TWO: &[u8] = b"IMADG01\nH\0\0\0\x02\x02\x03E\0\0\0\0E\0\0\0\0X\0\0\0\0more";

#[test]
fn ends_in_each_way(rt: HostRuntime) -> Result<(), Fail> {
    let eight = b"IMADG01\nH\0\0\0\x02\x08\x01E\0\0\0\0";
    let schedule = b"IMADG01\nH\0\0\0\x02\x01\x01E\0\0\0\0S\0\0\0\x01xE\0\0\0\0";
    let rows: [(&str, &[u8], u64, u64, u8, u64, &str); 8] = [
        ("read", TWO, 0, 0, 0, 30, "Polly\nPolly\n"),
        (
            "the tag",
            &TWO[..26],
            0,
            0,
            2,
            26,
            "Polly\nPolly\nfeed refused: Truncated at byte 26\n",
        ),
        (
            "no feed",
            b"IMADG02\nH",
            0,
            0,
            2,
            8,
            "feed refused: BadMagic at byte 0\n",
        ),
        ("a read fails", TWO, 1, 0, 4, 0, ""),
        ("a write fails", TWO, 0, 2, 5, 25, "Polly\n"),
        ("the line fails", &TWO[..20], 0, 2, 5, 20, "Polly\n"),
        ("no memory", eight.as_slice(), 0, 0, 6, 15, ""),
        (
            "no memory for a delivery",
            schedule.as_slice(),
            0,
            0,
            6,
            31,
            "Polly\n",
        ),
    ];
    for (name, feed, failing_read, failing_write, status, taken, written) in rows {
        let failing = Vec::from_slice(rt.alloc(), &[failing_read])?;
        let mut source = MemSource::new(Vec::from_slice(rt.alloc(), feed)?, 64, failing);
        let mut sink = sink_of(rt.alloc(), failing_write)?;
        let words = b"Polly\n".as_slice();
        let outcome = run_feed::<Parrot, MemSource, MemSink>(
            rt.alloc(),
            words,
            &mut source,
            &mut sink,
        );
        let wanted = Outcome {
            status,
            taken,
            written: written.len() as u64,
        };
        assert_eq!(rt; outcome, wanted, "{name}");
        assert_eq!(rt; sink.held(), written.as_bytes(), "{name}");
    }
    Ok(())
}

#[test]
fn tells_each_fault(rt: HostRuntime) -> Result<(), Fail> {
    let rows = [
        (
            2,
            3,
            RedoKind::Frame(FrameKind::ScnOrder),
            "redo refused: thread 2 record 3 ScnOrder\n",
        ),
        (
            1,
            9,
            RedoKind::BadVector { index: 4 },
            "redo refused: thread 1 record 9 vector 4 BadVector\n",
        ),
        (
            8,
            1,
            RedoKind::Unsound {
                index: 2,
                check: CheckKind::BadRow,
            },
            "redo refused: thread 8 record 1 vector 2 BadRow\n",
        ),
    ];
    for (thread, number, kind, line) in rows {
        let mut sink = sink_of(rt.alloc(), 0)?;
        let mut written = 0;
        let fault = RedoFault {
            thread,
            number,
            kind,
        };
        let ended = Err(Refusal::Delivery(Unanswered::Redo(fault)));
        let status = conclude(rt.alloc(), &mut sink, &mut written, ended);
        assert_eq!(rt; status, Status::RedoRefused);
        assert_eq!(rt; sink.held(), line.as_bytes());
        assert_eq!(rt; written, line.len() as u64);
    }
    Ok(())
}

#[test]
fn tells_the_usage(rt: HostRuntime) -> Result<(), Fail> {
    let mut sink = sink_of(rt.alloc(), 0)?;
    let wanted = Outcome {
        status: 1,
        taken: 0,
        written: 69,
    };
    assert_eq!(rt; refuse_words(&mut sink), wanted);
    let usage = b"usage: imadg step|run|soak|audit [--workers N] [--seed N] [--txns N]\n";
    assert_eq!(rt; sink.held(), usage.as_slice());
    Ok(())
}
