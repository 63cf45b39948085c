ghost use Rattle.std.specs.Prelude.{◌≡◌, ◌≤◌, ◌<◌, length};

use std::fmt;
use std::marker::Model;

/// At most `N` bytes, which lie in the value itself.
#[derive(Drop)]
pub(crate) struct Piece<const N: usize> {
    len: u8,
    bytes: [u8; N],
}

impl<const N: usize> Model for Piece<N> {
    ghost use Rattle.std.specs.Prelude.{ℕ, List, ◌≡◌, ◌≤◌, length, take};

    ghost Value = { List ℕ };

    ghost view = { λ p. take p.len p.bytes };

    ghost invariant = { λ p. (p.len ≤ N) × (length p.bytes ≡ N) };
}

impl<const N: usize> Piece<N> {
    /// These bytes.
    pub(crate) fn of(bytes: &[u8]) -> Piece<N>
        requires fits { length bytes.now ≤ N }
        requires counted { length bytes.now < 256 }
        ensures { result ≡ bytes.now }
    {
        let len = bytes.len();
        let mut room = [0; N];
        room[..len].copy_from_slice(bytes);
        Piece {
            len: len as u8,
            bytes: room,
        }
    }

    /// The same bytes once more.
    pub(crate) fn copy(&self) -> Piece<N>
        ensures { result ≡ self.now }
    {
        Piece {
            len: self.len,
            bytes: self.bytes,
        }
    }

    /// The bytes, lent.
    pub(crate) fn as_slice(&self) -> &[u8]
        ensures { result.now ≡ self.now }
    {
        &self.bytes[..usize::from(self.len)]
    }
}

impl<const N: usize> fmt::Debug for Piece<N> {
    fn fmt<W: fmt::Write>(&self, f: &mut fmt::Formatter<W>) -> fmt::Result {
        f.debug_list().entries(self.as_slice()).finish()
    }
}
