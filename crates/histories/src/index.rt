ghost use Rattle.std.specs.Prelude.{◌<◌};

pub mod parsing;

/// The number of a register, from 0 to 7.
#[derive(Clone, Copy, PartialEq, Eq, Debug)]
pub struct Index {
    pub number: u8,
    ghost known: { number < 8 },
}
