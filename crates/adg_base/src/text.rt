ghost use Rattle.std.specs.Prelude.{◌≡◌, ◌≤◌, length, IsOk, IfOk, OnOk};
ghost use Rattle.std.specs.List.{list_all};
ghost use Rattle.adg_base.specs.Text.{IsText, is_text, is_text_byte};

use crate::list::Duplicate;
use crate::memory::Memory;
use crate::piece::Piece;
use std::alloc::Global;
use std::marker::Model;

/// The most bytes of a text.
pub const MOST_TEXT_BYTES: usize = 64;

/// The most bytes of a text that lie in the text itself.
const MOST_SHORT_BYTES: usize = 14;

/// Where the bytes of a text lie. Most texts are short, and take no memory of their own.
#[derive(Debug, Drop)]
enum Held {
    Short(Piece<MOST_SHORT_BYTES>),
    Long(Box<Piece<MOST_TEXT_BYTES>>),
}

/// A text value: at most 64 printable ASCII bytes without `'` and `|`. Contracts see its bytes.
#[derive(Debug, Drop)]
pub struct Text {
    held: Held,
}

const _: () = prove!(size_of::<Text>() == 16);

impl Model for Text {
    ghost use Rattle.std.specs.Prelude.{ℕ, List};
    ghost use Rattle.adg_base.specs.Text.{IsText};
    ghost use Rattle.adg_base.specs.Held.{held_bytes};

    ghost Value = { List ℕ };

    ghost view = { λ t. held_bytes t.held };

    ghost invariant = { λ t. IsText (held_bytes t.held) };
}

/// Why bytes are no text.
#[derive(Clone, Copy, Debug, PartialEq, Eq)]
pub enum TextRefused {
    /// More than 64 bytes, or one that is not allowed.
    BadText,
    /// Want of memory.
    Memory,
}

fn is_allowed(byte: u8) -> bool
    ensures { result ≡ is_text_byte byte }
{
    byte >= 0x20 && byte <= 0x7e && byte != 0x27 && byte != 0x7c
}

fn are_allowed(bytes: &[u8]) -> bool
    ensures { result ≡ list_all is_text_byte bytes.now }
{
    bytes.iter().all(|byte| is_allowed(*byte))
}

impl Held {
    ghost use Rattle.adg_base.specs.Held.{held_bytes};

    /// It takes memory only for more than 14 bytes.
    fn of(alloc: Global, bytes: &[u8]) -> Result<Held, Memory>
        requires { length bytes.now ≤ 64 }
        ensures value { IfOk result (λ held. held_bytes held ≡ bytes.now) }
        ensures short { length bytes.now ≤ 14 → IsOk result }
    {
        if bytes.len() <= MOST_SHORT_BYTES {
            return Ok(Held::Short(Piece::of(bytes)));
        }
        let piece = Box::new(alloc, Piece::of(bytes))?;
        Ok(Held::Long(piece))
    }

    fn as_slice(&self) -> &[u8]
        ensures { result.now ≡ held_bytes self.now }
    {
        match self {
            Held::Short(piece) => piece.as_slice(),
            Held::Long(piece) => piece.as_slice(),
        }
    }

    fn copy(&self, alloc: Global) -> Result<Held, Memory>
        ensures { IfOk result (λ held. held_bytes held ≡ held_bytes self.now) }
    {
        match self {
            Held::Short(piece) => Ok(Held::Short(piece.copy())),
            Held::Long(piece) => {
                let piece = Box::new(alloc, piece.copy())?;
                Ok(Held::Long(piece))
            }
        }
    }
}

impl Text {
    /// Whether `new` would take the bytes as a text.
    pub fn is_text(bytes: &[u8]) -> bool
        ensures { result ≡ is_text bytes.now }
    {
        bytes.len() <= MOST_TEXT_BYTES && are_allowed(bytes)
    }

    /// The text of these bytes.
    pub fn new(alloc: Global, bytes: &[u8]) -> Result<Text, TextRefused>
        ensures text { IfOk result (λ text. text ≡ bytes.now) }
        ensures good { OnOk result (IsText bytes.now) }
        ensures bad { result ≡ Err TextRefused.BadText → IsText bytes.now → ⊥ }
        ensures refused { (IsText bytes.now → ⊥) → result ≡ Err TextRefused.BadText }
    {
        if !Text::is_text(bytes) {
            return Err(TextRefused::BadText);
        }
        match Held::of(alloc, bytes) {
            Ok(held) => Ok(Text { held }),
            Err(Memory) => Err(TextRefused::Memory),
        }
    }

    /// The bytes of the text.
    pub fn as_bytes(&self) -> &[u8]
        ensures value { result.now ≡ self.now }
        ensures text { IsText self.now }
    {
        self.held.as_slice()
    }
}

impl PartialEq for Text {
    ghost use Rattle.std.specs.Prelude.{nat_eq};
    ghost use Rattle.std.specs.Cmp.Lexicographic.{pointwise};
    ghost use Rattle.std.specs.Cmp.{partial_equiv_from_equiv};
    ghost use Rattle.std.proofs.lemmas.Cmp.{nat_list_eq_equiv};

    ghost eq = { pointwise nat_eq };

    ghost laws = { partial_equiv_from_equiv nat_list_eq_equiv };

    fn eq(&self, other: &Text) -> bool {
        self.as_bytes() == other.as_bytes()
    }
}

impl Duplicate for Text {
    fn copy(&self, alloc: Global) -> Result<Text, Memory> {
        let held = self.held.copy(alloc)?;
        Ok(Text { held })
    }
}
