//! The vectors of a record from its bytes.

ghost use Rattle.std.specs.Prelude.{◌≡◌, ℕ, ◌⊎◌, List, length, IfOk};
ghost use Rattle.adg_base.specs.declared.vector.Vector.{Vector};
ghost use Rattle.adg_model.specs.Spelling.{vectors_bytes, AreVectors, IsBadVector};

use crate::refused::VectorsRefused;
use crate::unread::Unread;
use crate::vector::vector_of;
use adg_base::list::List;
use adg_base::vector::VectorList;
use std::alloc::Global;

/// The vectors that the body of a record spells, all of the body, where the record says that it has
/// so many.
pub fn read_vectors(alloc: Global, body: &[u8], count: u8) -> Result<VectorList, VectorsRefused>
    // What is read is spelled so.
    ensures found { IfOk result (λ vs. AreVectors count vs × (length vs ≡ count) × (body.now ≡ vectors_bytes vs)) }
    // A refusal names the first vector that cannot be read.
    ensures bad { (index : ℕ) → result ≡ Err (VectorsRefused.BadVector index) → IsBadVector count body.now index }
    // What is spelled so is read, unless memory runs out.
    ensures only { (vs : List Vector) → AreVectors count vs → length vs ≡ count → body.now ≡ vectors_bytes vs
        → (result ≡ Ok vs) ⊎ (result ≡ Err VectorsRefused.Memory) }
{
    let mut vectors = Vec::with_capacity(alloc, count as usize)?;
    let mut rest = body;
    for before in 0..count {
        match vector_of(alloc, count, rest) {
            Ok((vector, after)) => {
                vectors.push(vector)?;
                rest = after;
            }
            Err(Unread::Bad) => {
                return Err(VectorsRefused::BadVector {
                    index: before as u16 + 1,
                });
            }
            Err(Unread::Memory) => return Err(VectorsRefused::Memory),
        }
    }
    if rest.is_empty() {
        Ok(List::from_vec(vectors))
    } else {
        Err(VectorsRefused::BadVector {
            index: count as u16 + 1,
        })
    }
}
