ghost use Rattle.std.specs.Prelude.{◌≡◌, [], ◌∷◌, IfOk};
ghost use Rattle.rings.specs.declared.refusal.Refusal.TheVariants.{Modulus};
ghost use Rattle.rings.specs.Refusals.{answer, ruling, test as checked};
ghost use Rattle.guarded.specs.Moduli.{is_check};
ghost use Rattle.guarded.specs.PairRing.{pair_check, pair_redundancy, pair_modulus, pair_root, pair_element, pair_meaning, pair_number};
ghost use Rattle.std.proofs.Common.{rules};
ghost use Rattle.guarded.specs.PairLawful.{pair_lawful};

use super::{Pair, Residues};
use crate::check::CheckModulus;
use crate::ring::GuardedRing;
use rings::{Plain, Refusal, Ring};

impl Pair {
    /// The pair ring of the check modulus p, or the refusal of any but the two.
    pub fn approve(p: u32) -> Result<Pair, Refusal>
        ensures answers { answer result ≡ ruling (checked (is_check p) Modulus ∷ []) }
        ensures made { IfOk result (λ ring. pair_check ring ≡ p) }
    {
        let check = CheckModulus::try_from(p)?;
        let coefficients = Plain::approve(3329)?;
        let checks = Plain::approve(check.p.number as u16)?;
        Ok(Pair {
            coefficients,
            checks,
        })
    }
}

impl Ring for Pair {
    type Word = Residues;

    ghost modulus = { pair_modulus };

    ghost root = { pair_root };

    ghost element = { pair_element };

    ghost meaning = { pair_meaning };

    ghost odd = { Prim.search rules };

    ghost halfway = { Prim.search rules };

    ghost below = { Prim.search rules };

    fn sum(&self, a: Residues, b: Residues) -> Residues {
        Residues {
            coefficient: self.coefficients.sum(a.coefficient, b.coefficient),
            check: self.checks.sum(a.check, b.check),
        }
    }

    fn difference(&self, a: Residues, b: Residues) -> Residues {
        Residues {
            coefficient: self.coefficients.difference(a.coefficient, b.coefficient),
            check: self.checks.difference(a.check, b.check),
        }
    }

    fn product(&self, a: Residues, b: Residues) -> Residues {
        Residues {
            coefficient: self.coefficients.product(a.coefficient, b.coefficient),
            check: self.checks.product(a.check, b.check),
        }
    }

    fn power(&self, e: u8) -> Residues {
        Residues {
            coefficient: self.coefficients.power(e),
            check: self.checks.power(e),
        }
    }

    fn inverse(&self) -> Residues {
        Residues {
            coefficient: self.coefficients.inverse(),
            check: self.checks.inverse(),
        }
    }

    fn zero(&self) -> Residues {
        Residues::default()
    }

    fn test(&self, w: Residues) -> bool {
        self.coefficients.test(w.coefficient) && self.checks.test(w.check)
    }
}

impl GuardedRing for Pair {
    ghost check = { pair_check };

    ghost redundancy = { pair_redundancy };

    ghost number = { pair_number };

    ghost joint = { Prim.search rules };

    ghost lawful = { λ s. pair_lawful s };

    fn check_modulus(&self) -> u32 {
        self.checks.size() as u32
    }

    fn redundancy_number(&self) -> u8 {
        1
    }

    fn lift(&self, s: u16, c: u32, _k: u8) -> Residues {
        Residues {
            coefficient: s,
            check: c as u16,
        }
    }

    fn split(&self, w: Residues) -> (u16, u32) {
        (w.coefficient, w.check as u32)
    }
}
