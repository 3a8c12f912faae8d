ghost use Rattle.std.specs.Prelude.{◌≡◌, false};

use super::character::Character;
use super::decode::first_character;
use super::surrogates::{is_leading, is_trailing};
use base::Fault;

// The characters of a stored text, one after the other: what is left of it, and whether a leading surrogate was read
// last. No iterator: a step that is refused stays where it is, and an iterator would have to end there.
#[derive(Drop)]
pub struct Characters<'a> {
    rest: &'a [u8],
    led: bool,
}

impl<'a> Characters<'a> {
    ghost use Rattle.text.specs.Reader.{rest_of, led_of, Next};

    pub fn new(text: &'a [u8]) -> Characters<'a>
        ensures rest { rest_of result ≡ text.now }
        ensures led { led_of result ≡ false }
    {
        Characters {
            rest: text,
            led: false,
        }
    }

    // The next character, or None at the end. A high-low pair in two characters is refused, as it is one in stored
    // form.
    pub fn next(&mut self) -> Result<Option<Character<'a>>, Fault>
        ensures { Next self.old self.new result }
    {
        let text = self.rest;
        if text.is_empty() {
            return Ok(None);
        }
        let Some(c) = first_character(text) else {
            return Err(Fault::Malformed);
        };
        if self.led && is_trailing(c.code) {
            return Err(Fault::Malformed);
        }
        self.led = is_leading(c.code);
        self.rest = &text[c.bytes.len()..];
        Ok(Some(c))
    }
}
