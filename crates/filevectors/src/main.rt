// Answers the vectors of files, which standard input holds as a command on each line: a request of the line protocol,
// or
//
//     damage HEX POS    loads the file with each value of the byte at POS in turn
//
// The answer is the 256 verdicts, each with how often it came in a row, as in `1@0*1 ok*1 1@0*254`. A verdict is `ok`,
// or the fault's number and node.

#![tactic(auto)]

mod damage;

use cases::answer_line;
use damage::Damage;
use script::{answer_lines, recognized};
use std::alloc::{AllocError, Global};
use std::io;

fn main(rt: HostRuntime) -> io::Result<()> {
    answer_lines(&rt, reply)
}

// The answer to a line. What is no command of the vectors' own is left to the line protocol.
fn reply(heap: Global, line: &[u8]) -> Result<String, AllocError> {
    match recognized(Damage::parse(heap, line))? {
        Some(damage) => damage.run(heap),
        None => answer_line(heap, line),
    }
}
