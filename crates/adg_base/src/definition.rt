use crate::number::Obj;
use crate::value::ColKind;

/// The most columns of an object.
pub const MOST_COLUMNS: usize = 16;

/// The most extents of an object.
pub const MOST_EXTENTS: u16 = 256;

/// The definition of an object: its extents, whether it is in-memory, how many columns it has and
/// their kinds. Kinds from `width` on are `Int` and mean nothing.
#[derive(Clone, Copy, Debug, PartialEq, Eq)]
pub struct Definition {
    pub obj: Obj,
    pub extents: u16,
    pub flag: bool,
    pub width: u8,
    pub kinds: [ColKind; MOST_COLUMNS],
}
