ghost use Rattle.std.specs.Prelude.{◌≡◌, true};
ghost use Rattle.rings.specs.PlainRing.{plain_modulus};
ghost use Rattle.guarded.specs.Moduli.{is_check};

use rings::Plain;

pub mod arithmetic;

/// A number below 3329 p by its remainders: by 3329 and by p.
#[derive(Clone, Copy, PartialEq, Eq, Debug, Default)]
pub struct Residues {
    pub coefficient: u16,
    pub check: u16,
}

/// Numbers modulo 3329 p, each held in one way, by a plain ring for each remainder. Made by `approve` alone.
#[derive(Drop)]
pub struct Pair {
    coefficients: Plain,
    checks: Plain,
    ghost coefficient: { plain_modulus coefficients ≡ 3329 },
    ghost known: { is_check (plain_modulus checks) ≡ true },
}
