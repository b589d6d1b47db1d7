ghost use Rattle.std.specs.Prelude.{◌≤◌};

pub mod parsing;

/// How many polynomials a row has.
#[derive(Clone, Copy, PartialEq, Eq, Debug)]
pub struct Rank {
    pub number: u8,
    ghost first: { 1 ≤ number },
    ghost last: { number ≤ 4 },
}
