ghost use Rattle.std.specs.Prelude.{◌≡◌, ◌+◌, ◌*◌, ◌<◌, ◌≤◌, length, IfSome, IsSome, MatchOption, ◌↔◌};
ghost use Rattle.sheet.specs.Bytes.{two_at, four_at, Numbers};

use crate::limits::COEFFICIENTS;
use std::array;

/// The number of the two bytes at an offset.
pub(crate) fn two(bytes: &[u8], at: usize) -> u16
    requires { at + 1 < length bytes.now }
    ensures { result ≡ two_at bytes.now at }
{
    u16::from_be_bytes([bytes[at], bytes[at + 1]])
}

/// The number of the four bytes at an offset.
pub(crate) fn four(bytes: &[u8], at: usize) -> u32
    requires { at + 3 < length bytes.now }
    ensures { result ≡ four_at bytes.now at }
{
    u32::from_be_bytes([bytes[at], bytes[at + 1], bytes[at + 2], bytes[at + 3]])
}

/// Coefficient k of a load's bytes, if they reach so far.
pub fn coefficient(bytes: &[u8], k: u8) -> Option<u16>
    ensures { MatchOption result (length bytes.now ≤ 2 * k + 1) (λ x. (2 * k + 1 < length bytes.now) × (x ≡ two_at bytes.now (2 * k))) }
{
    let at = 2 * k as usize;
    if bytes.len() <= at + 1 {
        return None;
    }
    Some(two(bytes, at))
}

/// The 256 coefficients of a load's 512 bytes; none of bytes of any other length.
pub fn read_coefficients(bytes: &[u8]) -> Option<[u16; 256]>
    ensures size { IsSome result ↔ (length bytes.now ≡ 512) }
    ensures written { IfSome result (Numbers bytes.now) }
{
    if bytes.len() != COEFFICIENTS {
        return None;
    }
    Some(array::from_fn(|k| two(bytes, 2 * k)))
}
