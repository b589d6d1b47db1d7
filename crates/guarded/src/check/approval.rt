ghost use Rattle.guarded.specs.CheckModulus.{Approves};

use super::CheckModulus;
use rings::{Divisor, Refusal};

impl TryFrom<u32> for CheckModulus {
    type Error = Refusal;

    ghost try_from_gives = { Approves };

    fn try_from(p: u32) -> Result<CheckModulus, Refusal> {
        match p {
            7681 => Ok(CheckModulus {
                p: Divisor::of(p),
                most: 167,
                inverse: 4520,
                scale: 25370283,
            }),
            12289 => Ok(CheckModulus {
                p: Divisor::of(p),
                most: 103,
                inverse: 8077,
                scale: 40590471,
            }),
            _ => Err(Refusal::Modulus),
        }
    }
}
