/// The form of a register. In work, a register has had some of the layers of a transform, from 1 to 6.
#[derive(Clone, Copy, PartialEq, Eq, Debug)]
pub enum Form {
    /// It holds nothing.
    Empty,
    /// It holds a polynomial.
    Natural,
    /// It holds a transform.
    Transformed,
    /// In work: it holds a polynomial after this many forward layers.
    Rising(u8),
    /// In work: it holds a transform after this many inverse layers.
    Falling(u8),
}

/// The record of a register: its form, its level, and the numbers a and b of its witness aJ + bJ².
///
/// The level is 0 while the register is empty, 1 once it is loaded, and 2 for a product; a sum or a difference has the greater of its two.
// The level stays a number, as the definitions have it under the theorem over histories: they take the greater of two levels and compare with 1.
#[derive(Clone, Copy, PartialEq, Eq, Debug)]
pub struct Register {
    pub form: Form,
    pub level: u8,
    pub a: u32,
    pub b: u32,
}

impl Form {
    ghost use Rattle.std.specs.Prelude.{◌≡◌};
    ghost use Rattle.histories.specs.Forms.{in_work, whole};

    /// Some of the layers of a transform are done, and not all.
    pub fn is_in_work(self) -> bool
        ensures { result ≡ in_work self }
    {
        matches!(self, Form::Rising(_) | Form::Falling(_))
    }

    /// Natural or transformed.
    pub fn is_whole(self) -> bool
        ensures { result ≡ whole self }
    {
        matches!(self, Form::Natural | Form::Transformed)
    }
}
