ghost use Rattle.std.specs.Prelude.{◌≡◌};
ghost use Rattle.script.specs.declared.failure.Failure.TheVariants.{Refused, Memory};

use super::answer::Answer;
use base::Fault;
use std::alloc::AllocError;
use thiserror::Error;

// Why a call makes no text.
#[derive(Clone, Copy, Debug, PartialEq, Eq, Error)]
pub enum Failure {
    #[error("{}", Answer::Refused(*.0))]
    Refused(Fault),
    #[error("{}", AllocError)]
    Memory,
}

impl From<Fault> for Failure {
    ghost from_gives = { λ fault r. r ≡ Refused fault };

    fn from(fault: Fault) -> Failure {
        Failure::Refused(fault)
    }
}

impl From<AllocError> for Failure {
    ghost from_gives = { λ _ r. r ≡ Memory };

    fn from(_error: AllocError) -> Failure {
        Failure::Memory
    }
}
