ghost use Rattle.std.specs.Prelude.{◌≡◌};
ghost use Rattle.sheet.specs.Reads.{mark};

use crate::parts::{Layer, Load, Operands};
use crate::tags;

/// A field of a sheet; its longer parts stay in the sheet.
#[derive(Clone, Copy)]
pub enum Field<'a> {
    /// Opens the redundant ring.
    Redundant { p: u16, t: u8 },
    /// Opens the pair ring.
    Pair { p: u16 },
    /// A polynomial.
    Load(Load<'a>),
    /// A transform.
    LoadHat(Load<'a>),
    /// A layer of the transform.
    Forward(Layer<'a>),
    /// A layer of the inverse transform.
    Inverse(Layer<'a>),
    Add(Operands),
    Subtract(Operands),
    Multiply(Operands),
    /// 256 new redundancy bytes.
    Refresh { register: u8, bytes: &'a [u8] },
    Clear { register: u8 },
    Release { register: u8 },
    /// Writes over the word at a position; in the pair ring the upper half is the remainder by 3329, the lower the one by p.
    Strike { position: u16, word: u32 },
}

impl Field<'_> {
    /// Its tag letter.
    // A match, since the variants carry their contents; by `Kind` it would be the same match twice.
    pub fn tag(&self) -> u8
        ensures { result ≡ mark self.now }
    {
        match self {
            Field::Redundant { .. } => tags::REDUNDANT,
            Field::Pair { .. } => tags::PAIR,
            Field::Load(_) => tags::LOAD,
            Field::LoadHat(_) => tags::LOAD_HAT,
            Field::Forward(_) => tags::FORWARD,
            Field::Inverse(_) => tags::INVERSE,
            Field::Add(_) => tags::ADD,
            Field::Subtract(_) => tags::SUBTRACT,
            Field::Multiply(_) => tags::MULTIPLY,
            Field::Refresh { .. } => tags::REFRESH,
            Field::Clear { .. } => tags::CLEAR,
            Field::Release { .. } => tags::RELEASE,
            Field::Strike { .. } => tags::STRIKE,
        }
    }
}

/// A field with the offset of its tag.
#[derive(Clone, Copy)]
pub struct Placed<'a> {
    pub at: u16,
    pub field: Field<'a>,
}
