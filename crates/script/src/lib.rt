// The line protocol for texts: a request on each line, and an answer to each.
//
//     escape HEX [ROOM]     the raw template text of a text
//     cook HEX [ROOM]       the text that raw template text cooks to
//
// HEX is bytes in lower-case hexadecimal, nothing at all where there are none; ROOM is the size of the output in bytes.
// The answer is `ok HEX`, `refused NUMBER layer LAYER node NODE`, or `malformed` where the line is no request.

#![tactic(auto)]

ghost use Rattle.script.specs.Replies.{Replies};

mod answer;
mod failure;
mod flaw;
mod hex;
mod request;
mod serving;
mod words;

pub use answer::Answer;
pub use failure::Failure;
pub use flaw::{Flaw, recognized};
pub use hex::{Hex, bytes_of};
use request::Request;
pub use request::{Call, number_of};
pub use serving::answer_lines;
use std::alloc::{AllocError, Global};
pub use words::words_of;

// The answer to a line, which stands without its line feed.
pub fn reply(heap: Global, line: &[u8]) -> Result<Answer, AllocError>
    ensures { Replies line.now result }
{
    match recognized(Request::parse(heap, line))? {
        Some(request) => Answer::try_from(request.run(heap)),
        None => Ok(Answer::Malformed),
    }
}
