use input::ReadError;
use rings::Refusal;
use std::alloc::{AllocError, AllocFailed};
use std::num::ParseIntError;
use std::str::FromStr;
use thiserror::Error;
use transform::Direction;

/// Why a line is not answered by numbers.
#[derive(Debug, Drop, Error)]
pub enum Unserved {
    /// The call was refused.
    #[error("refused {} {}", .0.number(), .0.place())]
    Refused(#[from] Refusal),
    /// The line is no call.
    #[error("unreadable")]
    Unreadable,
    #[error(transparent)]
    OutOfMemory(#[from(alloc)] AllocError),
}

impl From<ParseIntError> for Unserved {
    fn from(_e: ParseIntError) -> Unserved {
        Unserved::Unreadable
    }
}

impl From<ReadError> for Unserved {
    fn from(e: ReadError) -> Unserved {
        match e {
            ReadError::Word(_) => Unserved::Unreadable,
            ReadError::OutOfMemory(e) => Unserved::OutOfMemory(e),
        }
    }
}

/// A direction, as a call of a layer names it.
#[derive(Clone, Copy)]
pub struct Way(pub Direction);

impl FromStr for Way {
    type Err = Unserved;

    fn from_str(word: &str) -> Result<Way, Unserved> {
        match word {
            "forward" => Ok(Way(Direction::Forward)),
            "inverse" => Ok(Way(Direction::Inverse)),
            _ => Err(Unserved::Unreadable),
        }
    }
}
