ghost use Rattle.std.specs.Prelude.{◌≡◌, ◌++◌, Some, codes, decimal};
ghost use Rattle.rings.specs.Refusals.{number_of, place_of};

use std::error::Error;
use std::fmt;

/// Why a call is refused, with the place that its number asks for.
#[derive(Clone, Copy, PartialEq, Eq, Debug)]
pub enum Refusal {
    /// A slice of fixed length has another: its position among the call's slices, from 0.
    Length(u8),
    /// A register above 7: that number.
    Register(u8),
    /// A modulus that is not approved.
    Modulus,
    /// A redundancy number that is not approved.
    Redundancy,
    /// A coefficient above 3328: its index.
    Range(u8),
    /// A witness outside 1 to p - 1.
    Witness,
    /// A redundancy byte not below t: its index.
    Digit(u8),
    /// A layer number outside 1 to 7.
    Layer,
    /// A field of a sheet passes the sheet's end: the field's offset.
    Cut(u16),
    /// A field's tag is unknown or misplaced: the field's offset.
    Tag(u16),
    /// A field's length is not its tag's: the field's offset.
    Size(u16),
    /// A sheet above 32,768 bytes.
    Long,
    /// An operand, or the register to transform, refresh or release, is empty: the register.
    Empty(u8),
    /// A register's form does not suit the call, or the forms of two operands differ: the register, or the second operand.
    Form(u8),
    /// A transform would start while another register is in work: that other.
    Busy(u8),
    /// A mask list whose length does not suit the layer: the register, or 0 in a plain call.
    Masks(u8),
    /// A factor is a product already: the register.
    Level(u8),
    /// A factor's witness has a = 0: the register.
    Silent(u8),
    /// A word is no element: its index among the 2,048.
    Stray(u16),
    /// A remainder by p disagrees with the witness: the first such coefficient.
    Fault(u8),
}

impl Refusal {
    /// The number under which the rules list it.
    pub fn number(self) -> u8
        ensures { result ≡ number_of self }
    {
        match self {
            Refusal::Length(_) => 1,
            Refusal::Register(_) => 2,
            Refusal::Modulus => 3,
            Refusal::Redundancy => 4,
            Refusal::Range(_) => 5,
            Refusal::Witness => 6,
            Refusal::Digit(_) => 7,
            Refusal::Layer => 8,
            Refusal::Cut(_) => 10,
            Refusal::Tag(_) => 11,
            Refusal::Size(_) => 12,
            Refusal::Long => 13,
            Refusal::Empty(_) => 20,
            Refusal::Form(_) => 21,
            Refusal::Busy(_) => 22,
            Refusal::Masks(_) => 23,
            Refusal::Level(_) => 24,
            Refusal::Silent(_) => 25,
            Refusal::Stray(_) => 26,
            Refusal::Fault(_) => 27,
        }
    }

    /// The place that it blames.
    pub fn place(self) -> u16
        ensures { result ≡ place_of self }
    {
        match self {
            Refusal::Length(place)
            | Refusal::Register(place)
            | Refusal::Range(place)
            | Refusal::Digit(place)
            | Refusal::Empty(place)
            | Refusal::Form(place)
            | Refusal::Busy(place)
            | Refusal::Masks(place)
            | Refusal::Level(place)
            | Refusal::Silent(place)
            | Refusal::Fault(place) => place as u16,
            Refusal::Cut(place)
            | Refusal::Tag(place)
            | Refusal::Size(place)
            | Refusal::Stray(place) => place,
            Refusal::Long => 32768,
            Refusal::Modulus | Refusal::Redundancy | Refusal::Witness | Refusal::Layer => 0,
        }
    }
}

impl fmt::Display for Refusal {
    ghost output = { λ e. Some (codes "number " ++ decimal (number_of e) ++ codes ", place " ++ decimal (place_of e)) };

    fn fmt<W: fmt::Write>(&self, f: &mut fmt::Formatter<W>) -> fmt::Result {
        write!(f, "number {}, place {}", self.number(), self.place())
    }
}

impl Error for Refusal {}
