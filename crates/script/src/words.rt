ghost use Rattle.script.specs.Words.{WordsRead};

use super::flaw::Flaw;
use std::alloc::Global;
use std::str::from_utf8;

// The words of a line, which one space separates.
pub fn words_of(heap: Global, line: &[u8]) -> Result<Vec<&str>, Flaw>
    ensures { WordsRead line.now result }
{
    Ok(from_utf8(line)?.split(' ').collect(heap)?)
}

#[cfg(test)]
mod tests {
    use super::*;

    #[test]
    fn words_between_single_spaces(rt: HostRuntime) {
        let words = words_of(rt.alloc(), b"cook 41  7").expect(&rt, "memory for four words");
        assert_eq!(rt; words.as_slice(), ["cook", "41", "", "7"].as_slice());
    }
}
