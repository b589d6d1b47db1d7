ghost use Rattle.std.specs.Prelude.{◌≡◌, true, [], ◌∷◌, IfOk};
ghost use Rattle.rings.specs.declared.refusal.Refusal.TheVariants.{Modulus};
ghost use Rattle.rings.specs.Refusals.{answer, ruling, test as checked};
ghost use Rattle.roots.specs.Powers.{Powers};
ghost use Rattle.rings.specs.Moduli.{is_plain, plain_root};
ghost use Rattle.rings.specs.PlainRing.{plain_modulus, plain_ring_root, plain_element, plain_meaning};
ghost use Rattle.std.proofs.Common.{rules};

use super::Plain;
use crate::reduction::reduce;
use crate::refusal::Refusal;
use crate::ring::Ring;

impl Plain {
    /// The plain ring of this modulus, or the refusal of any but the three.
    pub fn approve(modulus: u16) -> Result<Plain, Refusal>
        ensures answers { answer result ≡ ruling (checked (is_plain modulus) Modulus ∷ []) }
        ensures modulus { IfOk result (λ ring. plain_modulus ring ≡ modulus) }
    {
        match modulus {
            3329 => Ok(Plain {
                modulus,
                reciprocal: 1290167,
                inverse: 3303,
            }),
            7681 => Ok(Plain {
                modulus,
                reciprocal: 559167,
                inverse: 7621,
            }),
            12289 => Ok(Plain {
                modulus,
                reciprocal: 349496,
                inverse: 12193,
            }),
            _ => Err(Refusal::Modulus),
        }
    }

    /// The modulus.
    pub fn size(&self) -> u16
        ensures { result ≡ plain_modulus self.now }
    {
        self.modulus
    }

    // The powers of the root. Looked up by the modulus and not kept in the ring: a ring that held a reference, and a workspace on it, could
    // not be lent to a closure, whose proof the borrow checker would not cover.
    fn powers(&self) -> &'static [u16; 256]
        ensures { Powers (plain_root self.now.modulus) self.now.modulus result.now }
    {
        match self.modulus {
            3329 => roots::plain_3329(),
            7681 => roots::plain_7681(),
            _ => roots::plain_12289(),
        }
    }
}

impl Ring for Plain {
    type Word = u16;

    ghost modulus = { plain_modulus };

    ghost root = { plain_ring_root };

    ghost element = { plain_element };

    ghost meaning = { plain_meaning };

    ghost odd = { Prim.search rules };

    ghost halfway = { Prim.search rules };

    ghost below = { Prim.search rules };

    fn sum(&self, a: u16, b: u16) -> u16 {
        let gap = self.modulus - b;
        if a < gap { a + b } else { a - gap }
    }

    fn difference(&self, a: u16, b: u16) -> u16 {
        if a < b { a + (self.modulus - b) } else { a - b }
    }

    fn product(&self, a: u16, b: u16) -> u16 {
        reduce(a as u32 * b as u32, self.modulus as u32, self.reciprocal) as u16
    }

    fn power(&self, e: u8) -> u16 {
        self.powers()[e as usize]
    }

    fn inverse(&self) -> u16 {
        self.inverse
    }

    fn zero(&self) -> u16 {
        0
    }

    fn test(&self, w: u16) -> bool {
        w < self.modulus
    }
}
