// Answers the vectors of comparing, which standard input holds as a line each:
//
//     cooks RAWHEX HEX      whether the raw text is well formed and cooks to the text
//
// The answers are `yes`, `no`, and `malformed` where the line is none of these.

#![tactic(auto)]

mod comparison;

use comparison::Comparison;
use script::{answer_lines, recognized};
use std::alloc::{AllocError, Global};
use std::io;

fn main(rt: HostRuntime) -> io::Result<()> {
    answer_lines(&rt, reply)
}

// The answer to a line.
fn reply(heap: Global, line: &[u8]) -> Result<&'static str, AllocError> {
    match recognized(Comparison::parse(heap, line))? {
        Some(comparison) => Ok(if comparison.holds() { "yes" } else { "no" }),
        None => Ok("malformed"),
    }
}
