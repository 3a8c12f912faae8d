// Comparing a text with what raw template text cooks to.
ghost use Rattle.std.specs.Prelude.{MatchBool};
ghost use Rattle.template.specs.Comparing.{IsPassed, Passes};
ghost use Rattle.template.specs.Cooked.{CooksTo};

use super::cooking::Withheld;
use super::raw::RawReader;
use super::sink::Sink;

// What is left of a text once what was taken is passed, or None where the two differ.
#[derive(Clone, Copy)]
struct Compared<'a> {
    rest: Option<&'a [u8]>,
}

impl Compared<'_> {
    // Whether all of the text is passed.
    fn is_passed(self) -> bool
        ensures { MatchBool result (IsPassed self.entry.rest) (IsPassed self.entry.rest → ⊥) }
    {
        matches!(self.rest, Some([]))
    }
}

impl Sink for Compared<'_> {
    ghost Took = { λ start piece now. Passes start.rest piece now.rest };

    fn take(&mut self, piece: &[u8]) {
        if let Some(rest) = self.rest {
            self.rest = rest.strip_prefix(piece);
        }
    }
}

// Whether the raw text is well formed and cooks to the text whose stored form is `cooked`. It is no walk, since it reads
// no further than to the part where the two differ.
pub fn cooks_to(raw: &[u8], cooked: &[u8]) -> bool
    ensures { MatchBool result (CooksTo raw.now cooked.now) (CooksTo raw.now cooked.now → ⊥) }
{
    let mut reader = RawReader::new(raw);
    let mut withheld = Withheld { lead: None };
    let mut left = Compared { rest: Some(cooked) };
    while left.rest.is_some() {
        match reader.next() {
            Ok(Some(part)) => withheld.put_part(part, &mut left),
            Ok(None) => {
                withheld.put(&mut left);
                return left.is_passed();
            }
            Err(_) => return false,
        }
    }
    false
}
