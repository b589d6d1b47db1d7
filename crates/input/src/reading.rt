ghost use Rattle.std.specs.Prelude.{◌≡◌, MatchResult};
ghost use Rattle.std.specs.declared.alloc.AllocError.{AllocError};
ghost use Rattle.input.specs.declared.reading.ReadError.TheVariants.{Word, OutOfMemory};
ghost use Rattle.input.specs.Numbers.{Reads, Fails};

use std::alloc::{AllocError, AllocFailed, Global};
use std::num::ParseIntError;
use std::str::FromStr;
use thiserror::Error;

/// Why the numbers of a text were not read.
#[derive(Debug, Drop, Error)]
pub enum ReadError {
    /// A word is no number of the type.
    #[error(transparent)]
    Word(ParseIntError),
    #[error(transparent)]
    OutOfMemory(AllocError),
}

impl From<ParseIntError> for ReadError {
    ghost from_gives = { λ e why. why ≡ Word e };

    fn from(e: ParseIntError) -> ReadError {
        ReadError::Word(e)
    }
}

impl<T: Drop> From<AllocFailed<T>> for ReadError {
    ghost from_gives = { λ _ why. (e : AllocError) × (why ≡ OutOfMemory e) };

    fn from(e: AllocFailed<T>) -> ReadError {
        ReadError::OutOfMemory(AllocError::from(e))
    }
}

/// The decimal numbers of a text, which white space separates.
pub fn numbers<T: FromStr<Err = ParseIntError> + Drop>(
    heap: Global,
    text: &str,
) -> Result<Vec<T>, ReadError>
    ensures { MatchResult result (λ all. Reads T.from_str_gives text.now all.items) (Fails T.from_str_gives text.now) }
{
    let mut all = Vec::new(heap);
    // A `for`: of `try_collect` it isn't known that it fails where a word is no number, and the contract says so.
    for word in text.split_whitespace() {
        all.push(word.parse::<T>()?)?;
    }
    Ok(all)
}
