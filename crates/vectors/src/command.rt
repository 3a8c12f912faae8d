use super::answer::Answer;
use base::Fault;
use script::{Flaw, bytes_of, number_of, words_of};
use std::alloc::Global;

// A call on texts, with what it is called with.
#[derive(Drop)]
pub enum Command {
    Lawful(Vec<u8>),
    Units(Vec<u8>),
    Unit(Vec<u8>, usize),
    Join {
        left: Vec<u8>,
        right: Vec<u8>,
        out: Vec<u8>,
    },
}

impl Command {
    // Reads a line, with one space between words.
    pub fn parse(heap: Global, line: &[u8]) -> Result<Command, Flaw> {
        match words_of(heap, line)?.as_slice() {
            ["lawful", text] => Ok(Command::Lawful(text_of(heap, text)?)),
            ["units", text] => Ok(Command::Units(text_of(heap, text)?)),
            ["unit", text, k] => Ok(Command::Unit(text_of(heap, text)?, number_of(k.as_bytes())?)),
            ["join", left, right] => Command::join(heap, left, right, usize::MAX),
            ["join", left, right, room] => Command::join(
                heap,
                left,
                right,
                number_of(room.as_bytes())?,
            ),
            _ => Err(Flaw::Malformed),
        }
    }

    // Joins two texts into `room` bytes, and into no more than both have.
    fn join(heap: Global, left: &str, right: &str, room: usize) -> Result<Command, Flaw> {
        let left = text_of(heap, left)?;
        let right = text_of(heap, right)?;
        let most = left.len().saturating_add(right.len());
        let out = vec![in heap; 0u8; room.min(most)]?;
        Ok(Command::Join { left, right, out })
    }

    pub fn run(self) -> Answer {
        self.call()
            .unwrap_or_else(|fault| Answer::Script(script::Answer::Refused(fault)))
    }

    fn call(self) -> Result<Answer, Fault> {
        match self {
            Command::Lawful(text) => Ok(Answer::Lawful(text::is_lawful(text.as_slice()))),
            Command::Units(text) => Ok(Answer::Count(text::count_units(text.as_slice())?)),
            Command::Unit(text, k) => Ok(Answer::Unit(text::unit_at(text.as_slice(), k)?)),
            Command::Join {
                left,
                right,
                mut out,
            } => {
                let len = text::join(left.as_slice(), right.as_slice(), out.as_mut_slice())?;
                out.truncate(len);
                Ok(Answer::Script(script::Answer::Text(out)))
            }
        }
    }
}

// The text that the word writes.
fn text_of(heap: Global, word: &str) -> Result<Vec<u8>, Flaw> {
    bytes_of(heap, word.as_bytes())
}
