ghost use Rattle.std.specs.Prelude.{◌≡◌, ◌*◌, ◌%◌, ◌<◌, true};
ghost use Rattle.guarded.specs.Moduli.{is_check, most_redundancy};

use rings::Divisor;

pub mod approval;
pub mod table;

/// An approved check modulus p, with the numbers that go with it. Made by `try_from` alone.
#[derive(Clone, Copy)]
pub(crate) struct CheckModulus {
    pub(crate) p: Divisor,
    // the largest redundancy number whose words fit
    pub(crate) most: u8,
    // the inverse of 3329 modulo p
    pub(crate) inverse: u32,
    // the inverse of 128 modulo 3329 p
    pub(crate) scale: u32,
    ghost known: { is_check p.number ≡ true },
    ghost limit: { most ≡ most_redundancy p.number },
    ghost inverts: { (3329 * inverse) % p.number ≡ 1 },
    ghost scales: { (128 * scale) % (3329 * p.number) ≡ 1 },
    ghost low: { scale < 3329 * p.number },
}
