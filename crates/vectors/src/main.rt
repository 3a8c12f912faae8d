// Answers the vectors, which standard input holds as a command on each line: a request of the line protocol, or
//
//     lawful HEX            whether the bytes are the stored form of a text
//     units HEX             how many units the text has
//     unit HEX K            the unit at K
//     join HEX HEX [ROOM]   the two texts joined
//
// The answers are `yes` and `no`; `ok N`; `ok UUUU`, or `none` past the end; `ok HEX`; and the protocol's own.

#![tactic(auto)]

mod answer;
mod command;

use answer::Answer;
use command::Command;
use script::{answer_lines, recognized};
use std::alloc::{AllocError, Global};
use std::io;

fn main(rt: HostRuntime) -> io::Result<()> {
    answer_lines(&rt, reply)
}

// The answer to a line. What is no command of the vectors' own is left to the line protocol.
fn reply(heap: Global, line: &[u8]) -> Result<Answer, AllocError> {
    match recognized(Command::parse(heap, line))? {
        Some(command) => Ok(command.run()),
        None => Ok(Answer::Script(script::reply(heap, line)?)),
    }
}
