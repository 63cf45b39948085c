ghost use Rattle.std.specs.Prelude.{◌<◌, length};

use redo_frames::{Assembler, FrameKind, FrameRefused, RawRecord};
use std::alloc::Global;
use std::test::Fail;

/// Two records: one of SCN 10 with one vector, and one of SCN 11 with three.
const REDO: [u8; 77] = [
    0x00, 0x15, 0x00, 0x00, 0x00, 0x00, 0x00, 0x00, 0x00, 0x0a, 0x01, // length, SCN, count
    0x07, 0x00, 0x01, 0x00, 0x01, 0x01, 0x01, 0x01, // a table
    0x00, 0x15, // length
    0x00, 0x38, 0x00, 0x00, 0x00, 0x00, 0x00, 0x00, 0x00, 0x0b, 0x03, // length, SCN, count
    0x01, 0x00, 0x00, 0x00, 0x00, 0x00, 0x00, 0x00, 0x07, // a transaction begins
    0x02, 0x00, 0x00, 0x00, 0x00, 0x00, 0x00, 0x00, 0x07, 0x00, 0x01, 0x00, 0x00, 0x00, 0x01, 0x01,
    0x00, 0x00, 0x00, 0x00, 0x00, 0x00, 0x00, 0x05, // it puts a row
    0x05, 0x00, 0x00, 0x00, 0x00, 0x00, 0x00, 0x00, 0x07, 0x01, // and commits
    0x00, 0x38, // length
];

/// Whether this is the record of that number, SCN, count and body.
fn is_record(record: &Option<RawRecord>, number: u64, scn: u64, count: u8, body: &[u8]) -> bool {
    match record {
        None => false,
        Some(record) => {
            record.number == number
                && record.scn.get() == scn
                && record.count == count
                && record.body.as_slice() == body
        }
    }
}

/// Whether exactly the two records are held.
fn holds_both(assembler: &mut Assembler) -> bool {
    is_record(&assembler.take(), 1, 10, 1, &REDO[11..19])
        && is_record(&assembler.take(), 2, 11, 3, &REDO[32..75])
        && assembler.take().is_none()
}

#[test]
fn finds_the_records_however_they_are_cut(rt: HostRuntime) {
    for cut in 0..78 {
        let mut assembler = Assembler::new(rt.alloc());
        assert!(rt; assembler.feed(&REDO[..cut]).is_ok());
        let between = cut == 0 || cut == 21 || cut == 77;
        assert_eq!(rt; assembler.is_between_records(), between, "at {cut}");
        assert!(rt; assembler.feed(&REDO[cut..]).is_ok());
        assert!(rt; assembler.is_between_records());
        assert!(rt; holds_both(&mut assembler), "at {cut}");
    }
    let mut assembler = Assembler::new(rt.alloc());
    for at in 0..77 {
        assert!(rt; assembler.feed(&REDO[at..at + 1]).is_ok());
    }
    assert!(rt; holds_both(&mut assembler));
}

/// How the bytes are refused, if feeding no more bytes then is refused so too.
fn refusal(alloc: Global, bytes: &[u8]) -> Option<FrameRefused>
    requires { length bytes.now < 1000 }
{
    let mut assembler = Assembler::new(alloc);
    let first = assembler.feed(bytes).err();
    let second = assembler.feed(b"").err();
    if first == second { first } else { None }
}

#[test]
fn refuses_the_first_bad_record(rt: HostRuntime) {
    let rows: [(&str, &[u8], u64, FrameKind); 8] = [
        ("a length of 12", b"\x00\x0c", 1, FrameKind::BadLength),
        ("a length of 0", b"\0\0", 1, FrameKind::BadLength),
        (
            "another trailer",
            b"\x00\x0d\0\0\0\0\0\0\0\x01\0\x00\x0c",
            1,
            FrameKind::BadTrailer,
        ),
        (
            "a trailer whose high byte is another",
            b"\x00\x0d\0\0\0\0\0\0\0\x01\0\x01\x0d",
            1,
            FrameKind::BadTrailer,
        ),
        (
            "SCN 0",
            b"\x00\x0d\0\0\0\0\0\0\0\0\0\x00\x0d",
            1,
            FrameKind::ScnRange,
        ),
        (
            "SCN 2^48",
            b"\x00\x0d\0\x01\0\0\0\0\0\0\0\x00\x0d",
            1,
            FrameKind::ScnRange,
        ),
        (
            "an equal SCN",
            b"\x00\x0d\0\0\0\0\0\0\0\x01\0\x00\x0d\x00\x0d\0\0\0\0\0\0\0\x01\0\x00\x0d",
            2,
            FrameKind::ScnOrder,
        ),
        (
            "a byte after the end",
            b"\x00\x0e\0\0\0\0\0\0\0\x01\x01\x0b\x00\x0e\0",
            2,
            FrameKind::AfterEnd,
        ),
    ];
    for (name, bytes, number, kind) in rows {
        let want = FrameRefused::Refused { number, kind };
        assert_eq!(rt; refusal(rt.alloc(), bytes), Some(want), "{name}");
    }
}

/// The record of this length and SCN whose vectors are zeros.
fn record_of(alloc: Global, len: u16, scn: u64, count: u8) -> Result<Vec<u8>, Fail> {
    let mut bytes = Vec::from_slice(alloc, &len.to_be_bytes())?;
    bytes.extend_from_slice(&scn.to_be_bytes())?;
    bytes.push(count)?;
    bytes.resize(usize::from(len).saturating_sub(2), 0)?;
    bytes.extend_from_slice(&len.to_be_bytes())?;
    Ok(bytes)
}

#[test]
fn takes_records_at_each_limit(rt: HostRuntime) -> Result<(), Fail> {
    for (name, len, scn, count, cut) in [
        ("the least", 13, 1, 0, 13),
        ("the longest", 65_535, 281_474_976_710_655, 255, 65_535),
        ("the longest behind a byte", 65_535, 1, 255, 1),
        ("the longest behind its head", 65_535, 1, 255, 11),
        ("the longest but for a byte", 65_535, 1, 1, 65_534),
    ] {
        let bytes = record_of(rt.alloc(), len, scn, count)?;
        assert!(rt; bytes.len() < 100_000, "{name}");
        let (first, second) = bytes.as_slice().split_at_checked(cut).ok_or("a cut")?;
        let mut assembler = Assembler::new(rt.alloc());
        assert!(rt; assembler.check().is_ok(), "{name}");
        assert!(rt; assembler.feed(first).is_ok(), "{name}");
        assert!(rt; assembler.feed(second).is_ok(), "{name}");
        let body = bytes
            .as_slice()
            .get(11..usize::from(len).saturating_sub(2))
            .ok_or("a body")?;
        assert!(rt; is_record(&assembler.take(), 1, scn, count, body), "{name}");
        assert!(rt; assembler.is_between_records(), "{name}");
    }
    Ok(())
}
