ghost use Rattle.std.specs.Prelude.{Some};
ghost use Rattle.script.specs.Lines.{AnswerOf, line_of};

use super::failure::Failure;
use super::hex::Hex;
use base::Fault;
use std::alloc::AllocError;
use std::fmt;

// What a line is answered with.
#[derive(Debug, PartialEq, Eq, Drop)]
pub enum Answer {
    // The text that the call made.
    Text(Vec<u8>),
    Refused(Fault),
    // The line is no request.
    Malformed,
}

// The answer that says what a call made, unless memory was short.
impl TryFrom<Result<Vec<u8>, Failure>> for Answer {
    type Error = AllocError;

    ghost try_from_gives = { AnswerOf };

    fn try_from(made: Result<Vec<u8>, Failure>) -> Result<Answer, AllocError> {
        match made {
            Ok(text) => Ok(Answer::Text(text)),
            Err(Failure::Refused(fault)) => Ok(Answer::Refused(fault)),
            Err(Failure::Memory) => Err(AllocError),
        }
    }
}

impl fmt::Display for Answer {
    ghost output = { λ a. Some (line_of a) };

    fn fmt<W: fmt::Write>(&self, f: &mut fmt::Formatter<W>) -> fmt::Result {
        match self {
            Answer::Text(bytes) => write!(f, "ok {}", Hex(bytes.as_slice())),
            Answer::Refused(fault) => write!(
                f,
                "refused {} layer {} node {}",
                fault.number(),
                fault.layer(),
                fault.node()
            ),
            Answer::Malformed => f.write_str("malformed"),
        }
    }
}
