ghost use Rattle.std.specs.Prelude.{◌≡◌, ◌+◌, ◌-◌, ◌*◌, ◌/◌, ◌%◌, ◌^◌, ◌<◌};

use guarded::GuardedRing;
use rings::{Divisor, Ring};

/// Numbers modulo the check modulus p of a ring.
#[derive(Drop)]
pub(crate) struct Modulus<'a, G: GuardedRing> {
    ring: &'a G,
    pub(crate) p: Divisor,
    ghost checks: { p.number ≡ G.check ring.now },
    ghost above: { 3329 < p.number },
}

impl<'a, G: GuardedRing> Modulus<'a, G> {
    pub(crate) fn of(ring: &'a G) -> Modulus<'a, G>
        ensures { result.ring.now ≡ ring.now }
    {
        Modulus {
            ring,
            p: Divisor::of(ring.check_modulus()),
        }
    }

    pub(crate) fn product(&self, a: u32, b: u32) -> u32
        ensures { result ≡ (a * b) % self.now.p.number }
    {
        self.p.remainder(a as u64 * b as u64)
    }

    pub(crate) fn sum(&self, a: u32, b: u32) -> u32
        requires { (a < self.now.p.number) × (b < self.now.p.number) }
        ensures { result ≡ (a + b) % self.now.p.number }
    {
        let gap = self.p.number - b;
        if a < gap { a + b } else { a - gap }
    }

    pub(crate) fn difference(&self, a: u32, b: u32) -> u32
        requires { (a < self.now.p.number) × (b < self.now.p.number) }
        ensures { result ≡ (a + (self.now.p.number - b)) % self.now.p.number }
    {
        if a < b {
            a + (self.p.number - b)
        } else {
            a - b
        }
    }

    // The root to the power of e.
    pub(crate) fn root_power(&self, e: u8) -> u32
        ensures { result ≡ (G.root self.now.ring.now ^ e) % self.now.p.number }
    {
        self.ring.split(self.ring.power(e)).1
    }
}
