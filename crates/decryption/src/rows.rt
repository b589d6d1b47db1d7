ghost use Rattle.std.specs.Prelude.{◌≡◌, ◌*◌, length};

pub mod split;

use crate::Rank;

/// As many polynomials u as the rank says, as many transformed polynomials s, each row one after the other, and the polynomial v.
#[derive(Clone, Copy)]
pub struct Rows<'a> {
    pub rank: Rank,
    pub u: &'a [u16],
    pub s: &'a [u16],
    pub v: &'a [u16],
    ghost u_size: { length u.now ≡ 256 * rank.number },
    ghost s_size: { length s.now ≡ 256 * rank.number },
}
