ghost use Rattle.decryption.specs.Ranks.{Ranks};

use super::Rank;
use thiserror::Error;

/// A number that is no rank of ML-KEM. The text has its quotes, as the programs print it.
#[derive(Clone, Copy, PartialEq, Eq, Debug, Error)]
#[error("\"the rank is not 2, 3 or 4\"")]
pub struct UnknownRank;

impl TryFrom<u16> for Rank {
    type Error = UnknownRank;

    ghost try_from_gives = { Ranks };

    fn try_from(number: u16) -> Result<Rank, UnknownRank> {
        match number {
            2..=4 => Ok(Rank {
                number: number as u8,
            }),
            _ => Err(UnknownRank),
        }
    }
}
