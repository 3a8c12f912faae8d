// Answering the lines of standard input.
use std::alloc::{AllocError, Global};
use std::io::{BufRead, BufReader};
use std::{fmt, io};

// Writes the answer to each line of standard input, which stands without its line feed, to standard output.
pub fn answer_lines<A, F>(rt: &(impl Input + Print + AllocGlobal), answer: F) -> io::Result<()>
where
    A: fmt::Display + Drop,
    F: Fn(Global, &[u8]) -> Result<A, AllocError>,
    requires { F.IsAlwaysCallable answer }
{
    let heap = rt.alloc();
    for line in BufReader::new(heap, rt.reader())?.split(heap, b'\n') {
        let answer = answer(heap, line?.as_slice())?;
        println!(rt; "{answer}")?;
    }
    Ok(())
}
