use adg_base::list::List;
use adg_base::number::{Obj, Scn, Txn};
use adg_base::row::Row;
use adg_base::text::Text;
use adg_base::value::{ColKind, KindList, Value};
use adg_base::vector::{RedoRecord, Vector, VectorList};
use change_vectors::read::read_vectors;
use change_vectors::refused::{VectorsRefused, WriteRefused};
use change_vectors::write::write_record;
use std::alloc::Global;
use std::test::Fail;

/// Two records, one that creates an object, and one that begins a transaction, puts a row and
/// commits: their bodies without length, SCN and number.
const CREATE: &[u8] = b"\x07\0\x01\0\x01\x01\x01\x01";

const CHANGE: &[u8] =
    b"\x01\0\0\0\0\0\0\0\x07\x02\0\0\0\0\0\0\0\x07\0\x01\0\0\0\x01\x01\0\0\0\0\0\0\0\x05\x05\0\0\0\0\0\0\0\x07\x01";

/// Bodies that are read and written again: each vector and kind of value, and each limit from
/// inside. A name, the number of vectors, and their bytes.
static GOOD: [(&str, u8, &[u8]); 26] = [
    ("a record that creates", 1, CREATE),
    ("a record of three vectors", 3, CHANGE),
    ("no vector", 0, b""),
    ("a begin", 1, b"\x01\0\0\0\0\0\0\0\x01"),
    (
        "the last transaction",
        1,
        b"\x01\xff\xff\xff\xff\xff\xff\xff\xff",
    ),
    ("a delete", 1, b"\x03\0\0\0\0\0\0\0\x07\0\x01\x02\x03\x3f"),
    (
        "the last address",
        1,
        b"\x03\0\0\0\0\0\0\0\x07\xff\xff\xff\xff\xff",
    ),
    ("an undo", 1, b"\x04\0\0\0\0\0\0\0\x07\0\x01\x02\x03\x3f"),
    ("a commit", 1, b"\x05\0\0\0\0\0\0\0\x07\0"),
    ("a commit with its flag", 1, b"\x05\0\0\0\0\0\0\0\x07\x01"),
    ("an abort", 1, b"\x06\0\0\0\0\0\0\0\x07"),
    (
        "an object that is not in-memory",
        1,
        b"\x07\0\x01\0\x01\0\x01\x02",
    ),
    (
        "256 extents and 16 columns",
        1,
        b"\x07\xff\xff\x01\0\x01\x10\x01\x02\x01\x02\x01\x02\x01\x02\x01\x02\x01\x02\x01\x02\x01\x02",
    ),
    ("a drop", 1, b"\x08\x01\0"),
    ("a column of integers more", 1, b"\x09\0\x01\x01"),
    ("a column of texts more", 1, b"\x09\0\x01\x02"),
    ("an object out of memory", 1, b"\x0a\0\x01"),
    ("the end of a thread", 1, b"\x0b"),
    ("a Null", 1, b"\x02\0\0\0\0\0\0\0\x07\0\x01\0\0\0\x01\0"),
    (
        "the least integer",
        1,
        b"\x02\0\0\0\0\0\0\0\x07\0\x01\0\0\0\x01\x01\x80\0\0\0\0\0\0\0",
    ),
    (
        "the integer -1",
        1,
        b"\x02\0\0\0\0\0\0\0\x07\0\x01\0\0\0\x01\x01\xff\xff\xff\xff\xff\xff\xff\xff",
    ),
    (
        "the greatest integer",
        1,
        b"\x02\0\0\0\0\0\0\0\x07\0\x01\0\0\0\x01\x01\x7f\xff\xff\xff\xff\xff\xff\xff",
    ),
    (
        "a text of no byte",
        1,
        b"\x02\0\0\0\0\0\0\0\x07\0\x01\0\0\0\x01\x02\0",
    ),
    (
        "a text of 64 bytes",
        1,
        b"\x02\0\0\0\0\0\0\0\x07\0\x01\0\0\0\x01\x02\x40 ~xxxxxxxxxxxxxxxxxxxxxxxxxxxxxxxxxxxxxxxxxxxxxxxxxxxxxxxxxxxxxx",
    ),
    (
        "a row of 16 columns",
        1,
        b"\x02\0\0\0\0\0\0\0\x07\0\x01\0\0\0\x10\0\0\0\0\0\0\0\0\0\0\0\0\0\0\0\0",
    ),
    (
        "four kinds in a record",
        4,
        b"\x06\0\0\0\0\0\0\0\x01\x08\0\x02\x09\0\x03\x02\x0a\0\x04",
    ),
];

/// Bodies with a vector that cannot be read: a name, the number of vectors, the bytes, and the
/// index of that vector.
static BAD: [(&str, u8, &[u8], u16); 28] = [
    ("bytes behind no vector", 0, b"\x0b", 1),
    ("bytes that remain", 1, b"\x08\0\x01\x0b", 2),
    ("a vector too few", 2, b"\x08\0\x01", 2),
    ("cut short", 2, b"\x08\0\x01\x08\0", 2),
    ("a begin that is cut short", 1, b"\x01\0\0\0\0\0\0\x07", 1),
    ("tag 0", 1, b"\0", 1),
    ("tag 12, at the second vector", 2, b"\x08\0\x01\x0c", 2),
    ("transaction 0", 1, b"\x01\0\0\0\0\0\0\0\0", 1),
    (
        "transaction 0 of a put",
        1,
        b"\x02\0\0\0\0\0\0\0\0\0\x01\0\0\0\x01\0",
        1,
    ),
    ("object 0", 1, b"\x08\0\0", 1),
    (
        "object 0 of a delete",
        1,
        b"\x03\0\0\0\0\0\0\0\x07\0\0\0\0\0",
        1,
    ),
    (
        "the end of a thread beside another",
        2,
        b"\x0b\x08\0\x01",
        1,
    ),
    ("no extents", 1, b"\x07\0\x01\0\0\0\x01\x01", 1),
    ("257 extents", 1, b"\x07\0\x01\x01\x01\0\x01\x01", 1),
    ("a flag of 2", 1, b"\x07\0\x01\0\x01\x02\x01\x01", 1),
    (
        "a commit with a flag of 2",
        1,
        b"\x05\0\0\0\0\0\0\0\x07\x02",
        1,
    ),
    ("no column", 1, b"\x07\0\x01\0\x01\x01\0", 1),
    (
        "17 columns",
        1,
        b"\x07\0\x01\0\x01\x01\x11\x01\x01\x01\x01\x01\x01\x01\x01\x01\x01\x01\x01\x01\x01\x01\x01\x01",
        1,
    ),
    ("a kind of 0", 1, b"\x09\0\x01\0", 1),
    ("a kind of 3", 1, b"\x07\0\x01\0\x01\x01\x01\x03", 1),
    (
        "a row of no column",
        1,
        b"\x02\0\0\0\0\0\0\0\x07\0\x01\0\0\0\0",
        1,
    ),
    (
        "a row of 17 columns",
        1,
        b"\x02\0\0\0\0\0\0\0\x07\0\x01\0\0\0\x11\0\0\0\0\0\0\0\0\0\0\0\0\0\0\0\0\0",
        1,
    ),
    (
        "a value of kind 3",
        1,
        b"\x02\0\0\0\0\0\0\0\x07\0\x01\0\0\0\x01\x03",
        1,
    ),
    (
        "an integer that is cut short",
        1,
        b"\x02\0\0\0\0\0\0\0\x07\0\x01\0\0\0\x01\x01\0\0\0\0\0\0\0",
        1,
    ),
    (
        "a text that is cut short",
        1,
        b"\x02\0\0\0\0\0\0\0\x07\0\x01\0\0\0\x01\x02\x02a",
        1,
    ),
    (
        "a text of 65 bytes",
        1,
        b"\x02\0\0\0\0\0\0\0\x07\0\x01\0\0\0\x01\x02\x41xxxxxxxxxxxxxxxxxxxxxxxxxxxxxxxxxxxxxxxxxxxxxxxxxxxxxxxxxxxxxxxxx",
        1,
    ),
    (
        "a quotation mark in a text",
        1,
        b"\x02\0\0\0\0\0\0\0\x07\0\x01\0\0\0\x01\x02\x01'",
        1,
    ),
    (
        "a bar in a text",
        1,
        b"\x02\0\0\0\0\0\0\0\x07\0\x01\0\0\0\x01\x02\x01|",
        1,
    ),
];

/// The record of this body at the greatest SCN.
fn framed(alloc: Global, count: u8, body: &[u8]) -> Result<Vec<u8>, Fail> {
    let len = u16::try_from(body.len().saturating_add(13))?;
    let mut bytes = Vec::from_slice(alloc, &len.to_be_bytes())?;
    bytes.extend_from_slice(b"\0\0\xff\xff\xff\xff\xff\xff".as_slice())?;
    bytes.push(count)?;
    bytes.extend_from_slice(body)?;
    bytes.extend_from_slice(&len.to_be_bytes())?;
    Ok(bytes)
}

#[test]
fn reads_and_writes_each_vector(rt: HostRuntime) -> Result<(), Fail> {
    let alloc = rt.alloc();
    let scn = Scn::new(281_474_976_710_655).ok_or("an SCN")?;
    for (name, count, body) in &GOOD {
        let vectors = match read_vectors(alloc, body, *count) {
            Ok(vectors) => vectors,
            Err(_) => List::new(alloc),
        };
        assert_eq!(rt; vectors.len(), *count as usize, "{name}");
        let written = write_record(alloc, &RedoRecord { scn, vectors })?;
        let wanted = framed(alloc, *count, body)?;
        assert_eq!(rt; written.as_slice(), wanted.as_slice(), "{name}");
    }
    Ok(())
}

#[test]
fn names_the_vector_that_cannot_be_read(rt: HostRuntime) {
    for (name, count, body, index) in &BAD {
        let refused = match read_vectors(rt.alloc(), body, *count) {
            Ok(_) => None,
            Err(refused) => Some(refused),
        };
        assert_eq!(rt;
            refused,
            Some(VectorsRefused::BadVector { index: *index }),
            "{name}"
        );
    }
}

/// A put of a row of so many texts of so many bytes.
fn put_of(alloc: Global, width: usize, len: usize) -> Result<Vector, Fail> {
    let bytes = [b'x'; 64];
    let mut values = Vec::new(alloc);
    for _ in 0..width {
        values.push(Value::Text(Text::new(alloc, &bytes[..len.min(64)])?))?;
    }
    Ok(Vector::Put {
        txn: Txn::new(1).ok_or("a transaction")?,
        obj: Obj::new(1).ok_or("an object")?,
        block: 0,
        slot: 0,
        row: Row::from_vec(alloc, values)?,
    })
}

fn create_of(alloc: Global, extents: u16, width: usize) -> Result<Vector, Fail> {
    let mut columns: KindList = List::new(alloc);
    for _ in 0..width {
        columns.push(ColKind::Int)?;
    }
    Ok(Vector::Create {
        obj: Obj::new(1).ok_or("an object")?,
        extents,
        flag: false,
        columns,
    })
}

/// A vector in short.
#[derive(Clone, Copy)]
enum Made {
    /// A row of so many texts of so many bytes.
    Put(usize, usize),
    /// An object of so many extents and columns.
    Create(u16, usize),
    /// The end of the thread, which no record has beside another vector.
    End,
}

/// So many vectors of one sort.
type Several = (u16, Made);

fn vector_of(alloc: Global, made: Made) -> Result<Vector, Fail> {
    match made {
        Made::Put(width, len) => put_of(alloc, width, len),
        Made::Create(extents, width) => create_of(alloc, extents, width),
        Made::End => Ok(Vector::EndThread),
    }
}

fn vectors_of(alloc: Global, several: &[Several]) -> Result<VectorList, Fail> {
    let mut vectors = List::new(alloc);
    for (count, made) in several {
        for _ in 0..*count {
            vectors.push(vector_of(alloc, *made)?)?;
        }
    }
    Ok(vectors)
}

/// How long the record is that is written.
fn write(alloc: Global, scn: u64, vectors: VectorList) -> Result<usize, WriteRefused> {
    match Scn::new(scn) {
        Some(scn) => Ok(write_record(alloc, &RedoRecord { scn, vectors })?.len()),
        None => Err(WriteRefused::BadForm),
    }
}

/// A name, the SCN of a record and its vectors, and how long it is or why it is not written.
type Written = (
    &'static str,
    u64,
    &'static [Several],
    Result<usize, WriteRefused>,
);

static WRITTEN: [Written; 16] = [
    ("61 puts", 1, &[(61, Made::Put(16, 64))], Ok(65_344)),
    (
        "62 puts",
        1,
        &[(62, Made::Put(16, 64))],
        Err(WriteRefused::TooLong),
    ),
    (
        "65,535 bytes",
        1,
        &[
            (61, Made::Put(16, 64)),
            (1, Made::Put(2, 64)),
            (1, Made::Put(1, 27)),
        ],
        Ok(65_535),
    ),
    (
        "65,536 bytes",
        1,
        &[
            (61, Made::Put(16, 64)),
            (1, Made::Put(2, 64)),
            (1, Made::Put(1, 28)),
        ],
        Err(WriteRefused::TooLong),
    ),
    ("SCN 0", 0, &[(1, Made::End)], Err(WriteRefused::BadForm)),
    ("one end", 1, &[(1, Made::End)], Ok(14)),
    ("two ends", 1, &[(2, Made::End)], Err(WriteRefused::BadForm)),
    (
        "255 ends",
        1,
        &[(255, Made::End)],
        Err(WriteRefused::BadForm),
    ),
    (
        "256 vectors",
        1,
        &[(256, Made::End)],
        Err(WriteRefused::TooLong),
    ),
    (
        "256 vectors at SCN 0",
        0,
        &[(256, Made::End)],
        Err(WriteRefused::TooLong),
    ),
    (
        "a row of no column",
        1,
        &[(1, Made::Put(0, 0))],
        Err(WriteRefused::BadForm),
    ),
    (
        "a row of 17 columns",
        1,
        &[(1, Made::Put(17, 1))],
        Err(WriteRefused::BadForm),
    ),
    (
        "no extents",
        1,
        &[(1, Made::Create(0, 1))],
        Err(WriteRefused::BadForm),
    ),
    (
        "257 extents",
        1,
        &[(1, Made::Create(257, 1))],
        Err(WriteRefused::BadForm),
    ),
    (
        "no column",
        1,
        &[(1, Made::Create(1, 0))],
        Err(WriteRefused::BadForm),
    ),
    (
        "17 columns",
        1,
        &[(1, Made::Create(1, 17))],
        Err(WriteRefused::BadForm),
    ),
];

#[test]
fn writes_what_has_a_spelling(rt: HostRuntime) -> Result<(), Fail> {
    for (name, scn, several, want) in &WRITTEN {
        let vectors = vectors_of(rt.alloc(), several)?;
        assert_eq!(rt; write(rt.alloc(), *scn, vectors), *want, "{name}");
    }
    Ok(())
}
