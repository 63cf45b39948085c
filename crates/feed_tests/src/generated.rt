use feed_gen::generate::{MOST_TRANSFERS, generate};
use std::test::Fail;

/// A name, the seed, how many transfers, and of the feed the length and a hash.
type Feed = (&'static str, u64, u32, usize, u64);

/// From a second generator, written apart from this one in another language.
static FEEDS: [Feed; 10] = [
    ("no transfer", 1, 0, 78_962, 0x6649_2535_bc64_1237),
    ("one transfer", 1, 1, 79_911, 0xf99f_b31d_f684_725b),
    ("an aborted one", 136, 1, 79_938, 0xfda8_42aa_fdb7_bdc1),
    (
        "less than a delivery",
        1,
        499,
        147_752,
        0x047e_daa8_72ff_8dc0,
    ),
    ("a whole delivery", 1, 500, 147_885, 0xbe0b_92e8_c726_a226),
    (
        "more than a delivery",
        1,
        501,
        148_834,
        0x1bdd_64c1_f550_4bc5,
    ),
    ("a second seed", 2, 501, 148_822, 0x123c_157a_ec45_0125),
    ("a third seed", 3, 501, 148_756, 0x58dd_60fa_64b8_c47f),
    (
        "the last seed",
        u64::MAX,
        501,
        148_462,
        0xeb8d_d5ea_b95e_0b58,
    ),
    (
        "an abort of the second session",
        1,
        3_001,
        493_481,
        0x3a7d_6243_bb27_8387,
    ),
];

/// The 64 bits of FNV-1a.
fn hash_of(bytes: &[u8]) -> u64 {
    let mut hash: u64 = 0xcbf2_9ce4_8422_2325;
    for byte in bytes {
        hash = (hash ^ u64::from(*byte)).wrapping_mul(0x0100_0000_01b3);
    }
    hash
}

#[test]
fn feeds_are_those_of_a_second_generator(rt: HostRuntime) -> Result<(), Fail> {
    for (name, seed, txns, len, hash) in FEEDS {
        let bytes = generate(rt.alloc(), seed, txns.min(MOST_TRANSFERS))?;
        assert_eq!(rt; bytes.len(), len, "{name}");
        assert_eq!(rt; hash_of(bytes.as_slice()), hash, "{name}");
    }
    Ok(())
}

/// How many frames of a sort a feed has.
#[derive(Clone, Copy, Debug, PartialEq, Eq)]
struct Frames {
    records: u32,
    commands: u32,
    deliveries: u32,
    others: u32,
}

/// Goes from frame to frame by their lengths.
fn frames_of(bytes: &[u8]) -> Frames {
    let mut frames = Frames {
        records: 0,
        commands: 0,
        deliveries: 0,
        others: 0,
    };
    let mut rest = &bytes[bytes.len().min(8)..];
    for _ in 0..1_000_000 {
        let [tag, a, b, c, d, behind @ ..] = rest else {
            break;
        };
        let len = u32::from_be_bytes([*a, *b, *c, *d]) as usize;
        rest = &behind[len.min(behind.len())..];
        count_frame(&mut frames, *tag);
    }
    frames
}

fn count_frame(frames: &mut Frames, tag: u8) {
    let place = match tag {
        b'R' => &mut frames.records,
        b'Q' => &mut frames.commands,
        b'E' => &mut frames.deliveries,
        _ => &mut frames.others,
    };
    *place = place.saturating_add(1);
}

/// A name, how many transfers, and how many records, commands and deliveries.
type Counts = (&'static str, u32, u32, u32, u32);

static COUNTS: [Counts; 6] = [
    ("no transfer", 0, 63, 45, 2),
    ("one transfer", 1, 65, 65, 3),
    ("less than a delivery", 499, 1_061, 65, 3),
    ("a whole delivery", 500, 1_063, 65, 3),
    ("more than a delivery", 501, 1_065, 85, 4),
    ("seven deliveries", 3_001, 6_065, 206, 9),
];

#[test]
fn frames_are_counted(rt: HostRuntime) -> Result<(), Fail> {
    for (name, txns, records, commands, deliveries) in COUNTS {
        let bytes = generate(rt.alloc(), 7, txns.min(MOST_TRANSFERS))?;
        let frames = Frames {
            records,
            commands,
            deliveries,
            others: 2,
        };
        assert_eq!(rt; frames_of(bytes.as_slice()), frames, "{name}");
    }
    Ok(())
}

/// The first frame of redo: table 1 has two extents and three columns, and thread 2 writes it.
static FIRST: [u8; 29] =
    *b"R\0\0\0\x18\x02\0\x17\0\0\0\0\0\0\0\x01\x01\x07\0\x01\0\x02\x01\x03\x01\x01\x02\0\x17";

#[test]
fn the_first_table_is_made(rt: HostRuntime) -> Result<(), Fail> {
    let bytes = generate(rt.alloc(), 1, 0)?;
    let bytes = bytes.as_slice();
    assert!(rt; bytes.len() > 44);
    assert_eq!(rt; &bytes[..15], b"IMADG01\nH\0\0\0\x02\x03\x04".as_slice());
    assert_eq!(rt; &bytes[15..44], FIRST.as_slice());
    Ok(())
}
