ghost use Rattle.std.specs.Prelude.{◌≡◌, ℕ, ◌*◌, ◌%◌, ◌<◌, true};
ghost use Rattle.guarded.specs.Model.{guarded, model, Lawful, Lifted, RoundTrips};

use rings::Ring;

/// A ring modulo 3329 p that carries a remainder by the check modulus p beside each coefficient, and has t words for each number.
pub trait GuardedRing: Ring {
    ghost check: { Self → ℕ };

    ghost redundancy: { Self → ℕ };

    ghost number: { Self → Self.Word → ℕ };

    /// The check modulus p.
    fn check_modulus(&self) -> u32
        ensures { result ≡ check self.now };

    /// The number t of elements that each number has.
    fn redundancy_number(&self) -> u8
        ensures { result ≡ redundancy self.now };

    /// Element number k of the meaning that leaves s by 3329 and c by p.
    fn lift(&self, s: u16, c: u32, k: u8) -> Self::Word
        requires coefficient { s < 3329 }
        requires check { c < check self.now }
        requires number { k < redundancy self.now }
        ensures { Lifted (guarded check redundancy Self.root Self.element Self.meaning number self.now) s c k result };

    /// The remainders of an element's meaning by 3329 and by p.
    fn split(&self, w: Self::Word) -> (u16, u32)
        requires { Self.element self.now w ≡ true }
        ensures coefficient { result.0 ≡ Self.meaning self.now w % 3329 }
        ensures check { result.1 ≡ Self.meaning self.now w % check self.now };

    ghost joint: { (s : Self) → Self.modulus s ≡ 3329 * check s };

    ghost lawful: { (s : Self) → Lawful (guarded check redundancy Self.root Self.element Self.meaning number s) };
}

/// For every guarded ring: lift and split undo each other.
pub fn round_trips_stand<G: GuardedRing>() -> u8
    ensures { (s : G) → RoundTrips (model G.GuardedRing s) }
{
    0
}
