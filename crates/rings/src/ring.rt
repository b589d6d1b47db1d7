ghost use Rattle.std.specs.Prelude.{◌≡◌, ℕ, ◌+◌, ◌-◌, ◌*◌, ◌%◌, ◌^◌, ◌<◌, Bool, true};

/// Numbers modulo an odd `modulus`, held as words. A word that passes `test` is an element, and means one number below the modulus.
///
/// The operations ask for elements: only the engine and the workspace call them, on words that they have tested.
pub trait Ring {
    type Word: Copy;

    ghost modulus: { Self → ℕ };

    ghost root: { Self → ℕ };

    ghost element: { Self → Self.Word → Bool };

    ghost meaning: { Self → Self.Word → ℕ };

    fn sum(&self, a: Self::Word, b: Self::Word) -> Self::Word
        requires left { element self.now a ≡ true }
        requires right { element self.now b ≡ true }
        ensures stays { element self.now result ≡ true }
        ensures means { meaning self.now result ≡ (meaning self.now a + meaning self.now b) % modulus self.now };

    fn difference(&self, a: Self::Word, b: Self::Word) -> Self::Word
        requires left { element self.now a ≡ true }
        requires right { element self.now b ≡ true }
        ensures stays { element self.now result ≡ true }
        ensures means { meaning self.now result ≡ (meaning self.now a + (modulus self.now - meaning self.now b)) % modulus self.now };

    fn product(&self, a: Self::Word, b: Self::Word) -> Self::Word
        requires left { element self.now a ≡ true }
        requires right { element self.now b ≡ true }
        ensures stays { element self.now result ≡ true }
        ensures means { meaning self.now result ≡ (meaning self.now a * meaning self.now b) % modulus self.now };

    /// The root to the power of e.
    fn power(&self, e: u8) -> Self::Word
        ensures stays { element self.now result ≡ true }
        ensures means { meaning self.now result ≡ (root self.now ^ e) % modulus self.now };

    /// The inverse of 128.
    fn inverse(&self) -> Self::Word
        ensures stays { element self.now result ≡ true }
        ensures means { (128 * meaning self.now result) % modulus self.now ≡ 1 };

    fn zero(&self) -> Self::Word
        ensures stays { element self.now result ≡ true }
        ensures means { meaning self.now result ≡ 0 };

    /// Whether a word is an element.
    fn test(&self, w: Self::Word) -> bool
        ensures { result ≡ element self.now w };

    ghost odd: { (s : Self) → modulus s % 2 ≡ 1 };

    // half the way through its powers the root is -1
    ghost halfway: { (s : Self) → (root s ^ 128 + 1) % modulus s ≡ 0 };

    ghost below: { (s : Self) (w : Self.Word) → element s w ≡ true → meaning s w < modulus s };
}
