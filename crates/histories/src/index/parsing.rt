ghost use Rattle.histories.specs.Indices.{Indexes};

use super::Index;
use rings::Refusal;

impl TryFrom<u8> for Index {
    type Error = Refusal;

    ghost try_from_gives = { Indexes };

    fn try_from(number: u8) -> Result<Index, Refusal> {
        if number < 8 {
            Ok(Index { number })
        } else {
            Err(Refusal::Register(number))
        }
    }
}
