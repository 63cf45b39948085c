//! How many bytes spellings have, against the room that is there for them.

ghost use Rattle.std.specs.Prelude.{◌≡◌, ◌+◌, ◌≤◌, length};
ghost use Rattle.std.specs.List.{flat_map};
ghost use Rattle.adg_model.specs.Spelling.{value_bytes, vector_bytes, vectors_bytes};
ghost use Rattle.change_vectors.specs.Room.{room_after};

use adg_base::text::Text;
use adg_base::value::Value;
use adg_base::vector::Vector;

/// The length of a text, which a byte holds.
pub fn text_len(text: &Text) -> u8
    ensures value { result ≡ length text.now }
    ensures range { result ≤ 64 }
{
    text.as_bytes().len() as u8
}

fn spend(room: usize, len: usize) -> Option<usize>
    ensures { result ≡ room_after room len }
{
    if room < len { None } else { Some(room - len) }
}

fn value_len(value: &Value) -> usize
    ensures { result ≡ length (value_bytes value.now) }
{
    match value {
        Value::Null => 1,
        Value::Int(_) => 9,
        Value::Text(text) => 2 + text_len(text) as usize,
    }
}

fn room_after_values(room: usize, values: &[Value]) -> Option<usize>
    ensures { result ≡ room_after room (length (flat_map value_bytes values.now)) }
{
    let mut left = room;
    for value in values {
        left = spend(left, value_len(value))?;
    }
    Some(left)
}

#[tactic(auto, using(crate::proofs::Sizes::room_after_both))]
fn room_after_put(room: usize, row: &[Value]) -> Option<usize>
    ensures { result ≡ room_after room (15 + length (flat_map value_bytes row.now)) }
{
    room_after_values(spend(room, 15)?, row)
}

#[tactic(auto, using(crate::proofs::Sizes::room_after_both))]
fn room_after_create(room: usize, columns: usize) -> Option<usize>
    ensures { result ≡ room_after room (7 + columns) }
{
    spend(spend(room, 7)?, columns)
}

#[tactic(auto, using(crate::proofs::Sizes::kinds_len))]
fn room_after_vector(room: usize, vector: &Vector) -> Option<usize>
    ensures { result ≡ room_after room (length (vector_bytes vector.now)) }
{
    match vector {
        Vector::Begin { .. } | Vector::Abort { .. } => spend(room, 9),
        Vector::Put { row, .. } => room_after_put(room, row.as_slice()),
        Vector::Delete { .. } | Vector::Undo { .. } => spend(room, 14),
        Vector::Commit { .. } => spend(room, 10),
        Vector::Create { columns, .. } => room_after_create(room, columns.len()),
        Vector::DropObject { .. } | Vector::NoInMemory { .. } => spend(room, 3),
        Vector::AddColumn { .. } => spend(room, 4),
        Vector::EndThread => spend(room, 1),
    }
}

/// The room that is left after the spellings of the vectors: none where they do not fit.
pub fn room_after_vectors(room: usize, vectors: &[Vector]) -> Option<usize>
    ensures { result ≡ room_after room (length (vectors_bytes vectors.now)) }
{
    let mut left = room;
    for vector in vectors {
        left = room_after_vector(left, vector)?;
    }
    Some(left)
}
