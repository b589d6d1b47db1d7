ghost use Rattle.std.specs.Prelude.{◌≡◌, ◌+◌, ◌-◌, ◌*◌, ◌%◌, ◌<◌, ◌≤◌, true, [], ◌∷◌, IfOk};
ghost use Rattle.rings.specs.declared.refusal.Refusal.TheVariants.{Modulus, Redundancy};
ghost use Rattle.rings.specs.Refusals.{answer, ruling, test as checked};
ghost use Rattle.guarded.specs.Moduli.{is_check, is_redundancy, most_redundancy};
ghost use Rattle.guarded.specs.RedundantRing.{redundant_check, redundant_redundancy, redundant_modulus, redundant_words, redundant_root, redundant_element, redundant_meaning, redundant_number};
ghost use Rattle.std.proofs.Common.{rules};
ghost use Rattle.guarded.specs.ModuliLemmas.{known_odd, known_turned};
ghost use Rattle.guarded.specs.RedundantLawful.{redundant_lawful};

use super::Redundant;
use crate::check::CheckModulus;
use crate::ring::GuardedRing;
use rings::{Divisor, Refusal, Ring};

// The ring of a check modulus and an approved t.
fn made(check: CheckModulus, t: u8) -> Redundant
    requires some { 1 ≤ t }
    requires most { t ≤ most_redundancy check.p.number }
    ensures { (result.check ≡ check) × (result.t ≡ t) }
{
    let n = 3329 * check.p.number;
    Redundant {
        check,
        t,
        n,
        words: Divisor::of(n * t as u32),
    }
}

impl Redundant {
    /// The redundant ring of the check modulus p and the redundancy number t, or the refusal of what is not approved.
    pub fn approve(p: u32, t: u8) -> Result<Redundant, Refusal>
        ensures answers { answer result ≡ ruling (checked (is_check p) Modulus ∷ checked (is_redundancy p t) Redundancy ∷ []) }
        ensures made { IfOk result (λ ring. (redundant_check ring ≡ p) × (redundant_redundancy ring ≡ t)) }
    {
        let check = CheckModulus::try_from(p)?;
        if t % 2 == 0 || t > check.most {
            return Err(Refusal::Redundancy);
        }
        Ok(made(check, t))
    }
}

// Each operation reduces by the number of words, 3329 p t, and never by 3329 p: the redundancy of the operands goes into the result.
// The clause `word` of sum, difference and product says so. The trait's clauses stand beside it, since a method's own clauses take the
// place of the trait's, and the prover does not derive those from `word` by itself.
impl Ring for Redundant {
    type Word = u32;

    ghost modulus = { redundant_modulus };

    ghost root = { redundant_root };

    ghost element = { redundant_element };

    ghost meaning = { redundant_meaning };

    ghost odd = { λ s. known_odd s.check.p.number s.check.known };

    ghost halfway = { λ s. known_turned s.check.p.number s.check.known };

    ghost below = { Prim.search rules };

    fn sum(&self, a: u32, b: u32) -> u32
        requires left { redundant_element self.now a ≡ true }
        requires right { redundant_element self.now b ≡ true }
        ensures stays { redundant_element self.now result ≡ true }
        ensures means { redundant_meaning self.now result ≡ (redundant_meaning self.now a + redundant_meaning self.now b) % redundant_modulus self.now }
        ensures word { result ≡ (a + b) % redundant_words self.now }
    {
        let gap = self.words.number - b;
        if a < gap { a + b } else { a - gap }
    }

    fn difference(&self, a: u32, b: u32) -> u32
        requires left { redundant_element self.now a ≡ true }
        requires right { redundant_element self.now b ≡ true }
        ensures stays { redundant_element self.now result ≡ true }
        ensures means { redundant_meaning self.now result ≡ (redundant_meaning self.now a + (redundant_modulus self.now - redundant_meaning self.now b)) % redundant_modulus self.now }
        ensures word { result ≡ (a + (redundant_words self.now - b)) % redundant_words self.now }
    {
        if a < b {
            a + (self.words.number - b)
        } else {
            a - b
        }
    }

    fn product(&self, a: u32, b: u32) -> u32
        requires left { redundant_element self.now a ≡ true }
        requires right { redundant_element self.now b ≡ true }
        ensures stays { redundant_element self.now result ≡ true }
        ensures means { redundant_meaning self.now result ≡ (redundant_meaning self.now a * redundant_meaning self.now b) % redundant_modulus self.now }
        ensures word { result ≡ (a * b) % redundant_words self.now }
    {
        self.words.remainder(a as u64 * b as u64)
    }

    fn power(&self, e: u8) -> u32 {
        self.check.powers()[e as usize]
    }

    fn inverse(&self) -> u32 {
        self.check.scale
    }

    fn zero(&self) -> u32 {
        0
    }

    fn test(&self, w: u32) -> bool {
        w < self.words.number
    }
}

impl GuardedRing for Redundant {
    ghost check = { redundant_check };

    ghost redundancy = { redundant_redundancy };

    ghost number = { redundant_number };

    ghost joint = { Prim.search rules };

    ghost lawful = { λ s. redundant_lawful s.check.p.number s.t s.check.known s.some s.most };

    fn check_modulus(&self) -> u32 {
        self.check.p.number
    }

    fn redundancy_number(&self) -> u8 {
        self.t
    }

    fn lift(&self, s: u16, c: u32, k: u8) -> u32 {
        let p = self.check.p;
        let gap = c + (p.number - s as u32);
        let part = p.remainder(gap as u64 * self.check.inverse as u64);
        s as u32 + 3329 * part + self.n * k as u32
    }

    fn split(&self, w: u32) -> (u16, u32) {
        ((w % 3329) as u16, self.check.p.remainder(w as u64))
    }
}
