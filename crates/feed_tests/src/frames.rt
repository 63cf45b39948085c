use adg_io::memory_source::MemSource;
use adg_model::delivery::RawDelivery;
use adg_model::fault::FeedKind;
use feed_frames::fault::FeedFault;
use feed_frames::reader::{FeedReader, Step};
use std::alloc::Global;
use std::process::Abort;
use std::test::Fail;

/// A feed of one thread and one session with two deliveries: redo, and a command.
static FEED: [u8; 139] = *b"IMADG01\nH\0\0\0\x02\x01\x01\
R\0\0\0\x4e\x01\0\x15\0\0\0\0\0\0\0\x0a\x01\x07\0\x01\0\x01\x01\x01\x01\0\x15\
\0\x38\0\0\0\0\0\0\0\x0b\x03\x01\0\0\0\0\0\0\0\x07\
\x02\0\0\0\0\0\0\0\x07\0\x01\0\0\0\x01\x01\0\0\0\0\0\0\0\x05\
\x05\0\0\0\0\0\0\0\x07\x01\0\x38\
E\0\0\0\0Q\0\0\0\x15\x01SELECT COUNT FROM t1E\0\0\0\0X\0\0\0\0";

/// How the reading of a whole feed went.
#[derive(Debug, Drop)]
struct Reading {
    deliveries: Vec<RawDelivery>,
    fault: Option<FeedFault>,
    taken: u64,
    again: bool,
    left: usize,
}

/// Reads a feed to its end or its fault, and asks once more.
fn read(alloc: Global, bytes: &[u8], most: usize, failing: &[u64]) -> Result<Reading, Fail> {
    let failing = Vec::from_slice(alloc, failing)?;
    let mut source = MemSource::new(Vec::from_slice(alloc, bytes)?, most, failing);
    let mut reader = FeedReader::new(alloc);
    let mut deliveries = Vec::new(alloc);
    let mut fault = None;
    for _ in 0..70_000 {
        match reader.next_delivery(&mut source) {
            Ok(Step::Delivery(delivery)) => deliveries.push(delivery)?,
            Ok(Step::End) => break,
            Err(found) => {
                fault = Some(found);
                break;
            }
        }
    }
    let taken = reader.taken();
    let again = match reader.next_delivery(&mut source) {
        Ok(Step::Delivery(_)) => false,
        Ok(Step::End) => fault.is_none(),
        Err(found) => fault == Some(found),
    };
    Ok(Reading {
        deliveries,
        fault,
        taken,
        again: again && reader.taken() == taken,
        left: source.left().len(),
    })
}

/// A name, the length of the feed, the byte that is another and its value, the kind of the fault, the
/// byte that it names, and how many were taken.
type Damage = (&'static str, usize, usize, u8, FeedKind, u64, u64);

static DAMAGES: [Damage; 22] = [
    ("no byte", 0, 0, 0x49, FeedKind::Truncated, 0, 0),
    ("a magic that is cut", 7, 0, 0x49, FeedKind::Truncated, 7, 7),
    ("redo that is cut", 60, 0, 0x49, FeedKind::Truncated, 60, 60),
    (
        "a stop that is cut",
        138,
        0,
        0x49,
        FeedKind::Truncated,
        138,
        138,
    ),
    ("another first byte", 139, 0, 0x48, FeedKind::BadMagic, 0, 8),
    (
        "another last byte of the magic",
        139,
        7,
        0x0d,
        FeedKind::BadMagic,
        0,
        8,
    ),
    ("no such first tag", 139, 8, 0x5a, FeedKind::BadTag, 8, 9),
    ("no header first", 139, 8, 0x52, FeedKind::BadOrder, 8, 9),
    (
        "a header of 3 bytes",
        139,
        12,
        0x03,
        FeedKind::BadLength,
        8,
        13,
    ),
    ("no thread", 139, 13, 0x00, FeedKind::BadThread, 8, 14),
    ("nine threads", 139, 13, 0x09, FeedKind::BadThread, 8, 14),
    ("no session", 139, 14, 0x00, FeedKind::BadSession, 8, 15),
    ("nine sessions", 139, 14, 0x09, FeedKind::BadSession, 8, 15),
    ("no such tag", 139, 15, 0x5a, FeedKind::BadTag, 15, 16),
    ("a second header", 139, 15, 0x48, FeedKind::BadOrder, 15, 16),
    (
        "a stop with a payload",
        139,
        15,
        0x58,
        FeedKind::BadLength,
        15,
        20,
    ),
    ("32 MiB and more", 139, 16, 0x02, FeedKind::TooLarge, 15, 20),
    (
        "redo of thread 2",
        139,
        20,
        0x02,
        FeedKind::BadThread,
        15,
        21,
    ),
    (
        "a stop in a delivery",
        139,
        98,
        0x58,
        FeedKind::BadOrder,
        98,
        99,
    ),
    (
        "an end with a payload",
        139,
        102,
        0x01,
        FeedKind::BadLength,
        98,
        103,
    ),
    (
        "a text of 1,279 bytes",
        139,
        106,
        0x05,
        FeedKind::BadLength,
        103,
        108,
    ),
    (
        "a command of session 2",
        139,
        108,
        0x02,
        FeedKind::BadSession,
        103,
        109,
    ),
];

#[test]
fn names_the_first_fault(rt: HostRuntime) -> Result<(), Fail> {
    for (name, len, at, byte, kind, place, taken) in &DAMAGES {
        let mut bytes = Vec::from_slice(rt.alloc(), FEED.as_slice())?;
        bytes.truncate(*len);
        if *at < bytes.len() {
            bytes[*at] = *byte;
        }
        for most in [1, 3, 1000] {
            let reading = read(rt.alloc(), bytes.as_slice(), most, &[])?;
            assert_fails(&rt, *name, &reading, *kind, *place, *taken);
        }
    }
    Ok(())
}

/// The reading ended with this fault, and so again.
fn assert_fails(
    rt: &impl Abort,
    name: &str,
    reading: &Reading,
    kind: FeedKind,
    byte: u64,
    taken: u64,
) {
    assert_eq!(rt; reading.fault, Some(FeedFault { kind, byte }), "{name}");
    assert_eq!(rt; reading.taken, taken, "{name}");
    assert!(rt; reading.again, "{name}");
}

/// The first delivery of the feed.
fn assert_first(rt: &impl Abort, delivery: &RawDelivery) {
    let pieces = delivery.pieces.as_slice();
    assert_eq!(rt; pieces.len(), 1);
    assert_eq!(rt; pieces[0].thread, 1);
    assert_eq!(rt; pieces[0].bytes.as_slice(), &FEED.as_slice()[21..98]);
    assert!(rt; delivery.commands.is_empty());
}

/// The second delivery of the feed.
fn assert_second(rt: &impl Abort, delivery: &RawDelivery) {
    let commands = delivery.commands.as_slice();
    assert_eq!(rt; commands.len(), 1);
    assert_eq!(rt; commands[0].session, 1);
    assert_eq!(rt;
        commands[0].text.as_slice(),
        b"SELECT COUNT FROM t1".as_slice()
    );
    assert!(rt; delivery.pieces.is_empty());
    assert!(rt; delivery.schedule.is_empty());
}

#[test]
fn gives_what_the_feed_brings(rt: HostRuntime) -> Result<(), Fail> {
    for most in [1, 7, 1000] {
        let reading = read(rt.alloc(), FEED.as_slice(), most, &[])?;
        assert_eq!(rt; reading.fault, None);
        assert_eq!(rt; reading.taken, 139);
        assert!(rt; reading.again);
        let [first, second] = reading.deliveries.as_slice() else {
            return Err(Fail::new("not two deliveries"));
        };
        assert_first(&rt, first);
        assert_second(&rt, second);
    }
    Ok(())
}

#[test]
fn tells_a_read_that_failed(rt: HostRuntime) -> Result<(), Fail> {
    for call in 1..20 {
        let reading = read(rt.alloc(), FEED.as_slice(), 1000, &[call])?;
        let taken = if call == 12 { 103 } else { reading.taken };
        assert_fails(&rt, "a read", &reading, FeedKind::Read, taken, taken);
    }
    Ok(())
}

/// A part of a feed behind its opening: so many frames with this tag, whose payload is so many times
/// this byte, or bytes as they are.
#[derive(Clone, Copy)]
enum Part {
    Frames(u32, u8, usize, u8),
    Bytes(&'static [u8]),
}

/// A feed at each limit: the threads and sessions, the payload of a delivery, the commands of a
/// session, a command, and the deliveries.
static FULL: [Part; 9] = [
    Part::Frames(1, b'R', 33_554_432, 8),
    Part::Frames(1, b'E', 0, 0),
    Part::Frames(1_024, b'Q', 1, 1),
    Part::Frames(1, b'E', 0, 0),
    Part::Frames(1, b'Q', 1_025, 8),
    Part::Frames(1, b'R', 1, 1),
    Part::Frames(1, b'S', 1, 1),
    Part::Frames(65_533, b'E', 0, 0),
    Part::Frames(1, b'X', 0, 0),
];

/// How many pieces, commands and schedule bytes the first deliveries of the full feed bring.
static SIZES: [(usize, usize, usize); 4] = [(1, 0, 0), (0, 1_024, 0), (1, 1, 1), (0, 0, 0)];

/// A name, what follows the opening, the kind of the fault, the byte that it names, and how many were
/// taken.
type Excess = (&'static str, Part, FeedKind, u64, u64);

static ONE_MORE: [Excess; 7] = [
    (
        "a payload",
        Part::Bytes(b"S\x02\0\0\x01"),
        FeedKind::TooLarge,
        15,
        20,
    ),
    (
        "two payloads",
        Part::Bytes(b"S\0\0\0\x01\0R\x02\0\0\0"),
        FeedKind::TooLarge,
        21,
        26,
    ),
    (
        "a command",
        Part::Bytes(b"Q\0\0\x04\x02"),
        FeedKind::BadLength,
        15,
        20,
    ),
    (
        "commands",
        Part::Frames(1_025, b'Q', 1, 1),
        FeedKind::TooManyCommands,
        6_159,
        6_165,
    ),
    (
        "deliveries",
        Part::Frames(65_536, b'E', 0, 0),
        FeedKind::TooManyDeliveries,
        327_690,
        327_695,
    ),
    (
        "a thread",
        Part::Frames(1, b'R', 1, 9),
        FeedKind::BadThread,
        15,
        21,
    ),
    (
        "schedule bytes",
        Part::Frames(1, b'S', 0, 0),
        FeedKind::BadLength,
        15,
        20,
    ),
];

/// Appends a frame.
fn push_frame(feed: &mut Vec<u8>, tag: u8, payload: &[u8]) -> Result<(), Fail> {
    let len = u32::try_from(payload.len())?;
    feed.push(tag)?;
    feed.extend_from_slice(&len.to_be_bytes())?;
    feed.extend_from_slice(payload)?;
    Ok(())
}

fn push_part(alloc: Global, feed: &mut Vec<u8>, part: Part) -> Result<(), Fail> {
    match part {
        Part::Frames(count, tag, len, byte) => {
            let payload = vec![in alloc; byte; len]?;
            for _ in 0..count {
                push_frame(feed, tag, payload.as_slice())?;
            }
        }
        Part::Bytes(bytes) => feed.extend_from_slice(bytes)?,
    }
    Ok(())
}

/// The opening of a feed of eight threads and eight sessions, and these parts.
fn feed_of(alloc: Global, parts: &[Part]) -> Result<Vec<u8>, Fail> {
    let mut feed = Vec::from_slice(alloc, b"IMADG01\nH\0\0\0\x02\x08\x08".as_slice())?;
    for part in parts {
        push_part(alloc, &mut feed, *part)?;
    }
    Ok(feed)
}

#[test]
fn keeps_to_the_limits(rt: HostRuntime) -> Result<(), Fail> {
    let mut feed = feed_of(rt.alloc(), &FULL)?;
    let taken = feed.len() as u64;
    feed.push(7)?;
    let reading = read(rt.alloc(), feed.as_slice(), 100_000, &[])?;
    assert_eq!(rt; reading.fault, None);
    assert_eq!(rt; reading.taken, taken);
    assert_eq!(rt; reading.left, 1);
    assert_eq!(rt; reading.deliveries.len(), 65_535);
    for (delivery, (pieces, commands, schedule)) in reading.deliveries.iter().zip(&SIZES) {
        assert_eq!(rt; delivery.pieces.len(), *pieces);
        assert_eq!(rt; delivery.commands.len(), *commands);
        assert_eq!(rt; delivery.schedule.len(), *schedule);
    }
    Ok(())
}

#[test]
fn refuses_one_more_than_the_most(rt: HostRuntime) -> Result<(), Fail> {
    for (name, part, kind, byte, taken) in &ONE_MORE {
        let feed = feed_of(rt.alloc(), &[*part])?;
        let reading = read(rt.alloc(), feed.as_slice(), 100_000, &[])?;
        assert_fails(&rt, *name, &reading, *kind, *byte, *taken);
    }
    Ok(())
}
