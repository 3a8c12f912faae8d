use base::Fault;
use cases::Memory;
use file::load;
use script::{Flaw, bytes_of, number_of, words_of};
use std::alloc::{AllocError, Global};
use std::fmt;

// What comes of loading a file.
type Verdict = Result<(), Fault>;

// Equal verdicts in a row.
#[derive(Clone, Copy)]
pub struct Run {
    verdict: Verdict,
    len: usize,
}

impl Run {
    fn new(verdict: Verdict) -> Run {
        Run { verdict, len: 1 }
    }
}

impl fmt::Display for Run {
    fn fmt<W: fmt::Write>(&self, f: &mut fmt::Formatter<W>) -> fmt::Result {
        match self.verdict {
            Ok(()) => write!(f, "ok*{}", self.len),
            Err(fault) => write!(f, "{}@{}*{}", fault.number(), fault.node(), self.len),
        }
    }
}

// A file, and a place in it.
#[derive(Drop)]
pub struct Damage {
    file: Vec<u8>,
    place: usize,
}

impl Damage {
    // Reads a line, with one space between words.
    pub fn parse(heap: Global, line: &[u8]) -> Result<Damage, Flaw> {
        let words = words_of(heap, line)?;
        let ["damage", file, place] = words.as_slice() else {
            return Err(Flaw::Malformed);
        };
        let file = bytes_of(heap, file.as_bytes())?;
        let place = number_of(place.as_bytes())?;
        if place < file.len() {
            Ok(Damage { file, place })
        } else {
            Err(Flaw::Malformed)
        }
    }

    // The verdicts on the file with each value in the place, run after run.
    pub fn run(mut self, heap: Global) -> Result<String, AllocError> {
        let mut memory = Memory::for_any_file(heap)?;
        let mut line = String::new(heap);
        let mut run = Run::new(self.verdict(&mut memory, 0));
        for value in 1..=u8::MAX {
            let verdict = self.verdict(&mut memory, value);
            if verdict == run.verdict {
                run.len = run.len.saturating_add(1);
            } else {
                line.push_str(format!(in heap; "{run} ")?.as_str())?;
                run = Run::new(verdict);
            }
        }
        format!(in heap; "{line}{run}")
    }

    // The verdict on the file with this value in the place.
    fn verdict(&mut self, memory: &mut Memory, value: u8) -> Verdict {
        if let Some(byte) = self.file.get_mut(self.place) {
            *byte = value;
        }
        match load(self.file.as_slice(), memory.stores()) {
            Ok(_) => Ok(()),
            Err(refused) => Err(refused.fault),
        }
    }
}
