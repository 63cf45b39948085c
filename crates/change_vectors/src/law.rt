//! Laws of the spellings.

ghost use Rattle.std.specs.Prelude.{◌≡◌, ℕ, ◌++◌, List, length};
ghost use Rattle.adg_base.specs.declared.vector.Vector.{Vector};
ghost use Rattle.adg_model.specs.Spelling.{vector_bytes, vectors_bytes, IsVector, AreVectors};

/// What was written is read again: vectors of one number and one spelling are the same, whatever
/// follows, and no spelling of a vector begins that of another.
pub fn one_spelling()
    ensures vector { (count : ℕ) (a b : Vector) (x y : List ℕ) → IsVector count a → IsVector count b
        → vector_bytes a ++ x ≡ vector_bytes b ++ y → (a ≡ b) × (x ≡ y) }
    ensures vectors { (count : ℕ) (a b : List Vector) (x y : List ℕ) → AreVectors count a → AreVectors count b
        → length a ≡ length b → vectors_bytes a ++ x ≡ vectors_bytes b ++ y → (a ≡ b) × (x ≡ y) }
{}
