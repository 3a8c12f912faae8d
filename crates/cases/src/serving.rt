// Answering lines, and standard input.
ghost use Rattle.std.specs.Prelude.{IfOk, string_bytes};
ghost use Rattle.cases.specs.Lines.{AnswersLine};

use super::case::Case;
use script::{answer_lines, recognized, reply};
use std::alloc::{AllocError, Global};
use std::io;

// The answer to a line, as it is printed: of a case what comes of it, of any other line the reply.
pub fn answer_line(heap: Global, line: &[u8]) -> Result<String, AllocError>
    ensures { IfOk result (λ text. AnswersLine line.now (string_bytes text)) }
{
    match recognized(Case::parse(heap, line))? {
        Some(case) => case.run(heap),
        None => format!(in heap; "{}", reply(heap, line)?),
    }
}

// Answers each line of standard input on standard output.
pub fn serve(rt: &(impl Input + Print + AllocGlobal)) -> io::Result<()> {
    answer_lines(rt, answer_line)
}
