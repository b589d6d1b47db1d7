ghost use Rattle.std.specs.Prelude.{◌≡◌, ◌/◌, ◌%◌, ◌^◌, ◌<◌};

use crate::reduction::reduce_wide;

const BASE: u128 = 18446744073709551616;

/// A number with its reciprocal, so that a remainder by it takes no division. Above 1: the reciprocal of 1 would not fit.
#[derive(Clone, Copy)]
pub struct Divisor {
    pub number: u32,
    // the whole part of 2^64 / number
    reciprocal: u64,
    ghost some: { 1 < number },
    ghost divides: { reciprocal ≡ (2 ^ 64) / number },
}

impl Divisor {
    /// The divisor of this number.
    pub fn of(number: u32) -> Divisor
        requires { 1 < number }
        ensures { result.number ≡ number }
    {
        Divisor {
            number,
            reciprocal: (BASE / number as u128) as u64,
        }
    }

    /// The remainder of x by the number.
    pub fn remainder(&self, x: u64) -> u32
        ensures { result ≡ x % self.now.number }
    {
        reduce_wide(x, self.number as u64, self.reciprocal)
    }
}
