ghost use Rattle.std.specs.Prelude.{◌≡◌, ◌≤◌, length, take};
ghost use Rattle.std.specs.Int.{w16, w64, from_be_bytes};

use byteorder::{BigEndian, ByteOrder};

/// The number that the first two bytes spell, the high byte first.
#[tactic(auto, using(adg_model::proofs::BigEndian::number_of_2))]
pub fn first_u16(bytes: &[u8]) -> u16
    requires { 2 ≤ length bytes.now }
    ensures { result ≡ from_be_bytes w16 (take 2 bytes.now) }
{
    BigEndian::read_u16(bytes)
}

/// The number that the first eight bytes spell, the high byte first.
#[tactic(auto, using(adg_model::proofs::BigEndian::number_of_8))]
pub fn first_u64(bytes: &[u8]) -> u64
    requires { 8 ≤ length bytes.now }
    ensures { result ≡ from_be_bytes w64 (take 8 bytes.now) }
{
    BigEndian::read_u64(bytes)
}
