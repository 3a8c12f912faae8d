use script::{Flaw, bytes_of, words_of};
use std::alloc::Global;

// Raw text, and the text that it is to cook to.
#[derive(Drop)]
pub struct Comparison {
    raw: Vec<u8>,
    cooked: Vec<u8>,
}

impl Comparison {
    // Reads a line, with one space between words.
    pub fn parse(heap: Global, line: &[u8]) -> Result<Comparison, Flaw> {
        match words_of(heap, line)?.as_slice() {
            ["cooks", raw, cooked] => Ok(Comparison {
                raw: bytes_of(heap, raw.as_bytes())?,
                cooked: bytes_of(heap, cooked.as_bytes())?,
            }),
            _ => Err(Flaw::Malformed),
        }
    }

    // Whether the raw text cooks to the text.
    pub fn holds(&self) -> bool {
        template::cooks_to(self.raw.as_slice(), self.cooked.as_slice())
    }
}
