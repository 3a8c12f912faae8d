ghost use Rattle.std.specs.Prelude.{◌≡◌};
ghost use Rattle.script.specs.Flaws.{Recognized};
ghost use Rattle.script.specs.declared.flaw.Flaw.TheVariants.{Malformed, Memory};

use std::alloc::{AllocError, AllocFailed};
use std::num::ParseIntError;
use std::str::Utf8Error;
use thiserror::Error;

// Why a line gives no request.
#[derive(Clone, Copy, Debug, PartialEq, Eq, Error)]
pub enum Flaw {
    #[error("malformed")]
    Malformed,
    #[error("{}", AllocError)]
    Memory,
}

// What was read of a line, or nothing where the line is malformed.
pub fn recognized<T>(read: Result<T, Flaw>) -> Result<Option<T>, AllocError>
    ensures { Recognized read result }
{
    match read {
        Ok(request) => Ok(Some(request)),
        Err(Flaw::Malformed) => Ok(None),
        Err(Flaw::Memory) => Err(AllocError),
    }
}

impl From<AllocError> for Flaw {
    ghost from_gives = { λ _ r. r ≡ Memory };

    fn from(_error: AllocError) -> Flaw {
        Flaw::Memory
    }
}

impl<T: Drop> From<AllocFailed<T>> for Flaw {
    ghost from_gives = { λ _ r. r ≡ Memory };

    fn from(_error: AllocFailed<T>) -> Flaw {
        Flaw::Memory
    }
}

impl From<Utf8Error> for Flaw {
    ghost from_gives = { λ _ r. r ≡ Malformed };

    fn from(_error: Utf8Error) -> Flaw {
        Flaw::Malformed
    }
}

impl From<ParseIntError> for Flaw {
    ghost from_gives = { λ _ r. r ≡ Malformed };

    fn from(_error: ParseIntError) -> Flaw {
        Flaw::Malformed
    }
}
