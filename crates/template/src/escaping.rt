// Escaping: a text as raw template text.
ghost use Rattle.std.specs.Prelude.{◌≡◌, ◌<◌, ◌≤◌, ◌∷◌};
ghost use Rattle.std.proofs.Math.Utf8.{encode, encodes};
ghost use Rattle.std.specs.Char.{digit_char};
ghost use Rattle.template.specs.Calls.{Escapes};
ghost use Rattle.template.specs.Escaped.{escaped, four_digits, raw_of};
ghost use Rattle.template.specs.Sinks.{Adds};
ghost use Rattle.text.specs.Stored.{Stores};

use super::sink::Sink;
use super::walk::{Walk, write_whole};
use base::Fault;
use text::{Character, Characters};

// A hexadecimal digit, in lower case.
fn hex_digit(value: u32) -> u8
    requires { value < 16 }
    ensures { result ≡ digit_char value }
{
    char::from_digit(value, 16).unwrap() as u8
}

// The escape \u with four digits, which spells any surrogate.
fn surrogate_escape(code: u32) -> [u8; 6]
    requires { code < 0x10000 }
    ensures { result ≡ 0x5C ∷ 0x75 ∷ four_digits code }
{
    [
        b'\\',
        b'u',
        hex_digit(code / 0x1000),
        hex_digit(code / 0x100 % 16),
        hex_digit(code / 16 % 16),
        hex_digit(code % 16),
    ]
}

// Hands on one character, escaped.
fn escape_character<S: Sink>(sink: &mut S, c: Character<'_>)
    ensures { Adds S.Took sink.old (encodes (escaped c.entry.code)) sink.new }
{
    match char::from_u32(c.code) {
        Some(mark @ ('\\' | '`' | '$')) => sink.take(&[b'\\', mark as u8]),
        Some('\r') => sink.take(b"\\r"),
        Some(_) => sink.take(c.bytes),
        None => sink.take(&surrogate_escape(c.code)),
    }
}

// A stored text, which is handed on escaped.
#[derive(Clone, Copy)]
pub(crate) struct StoredText<'a> {
    pub(crate) text: &'a [u8],
}

impl Walk for StoredText<'_> {
    ghost Means = { λ w. Stores w.text.now };

    ghost form = { raw_of };

    fn walk<S: Sink>(&self, sink: &mut S) -> Result<(), Fault> {
        let mut characters = Characters::new(self.text);
        while let Some(c) = characters.next()? {
            escape_character(sink, c);
        }
        Ok(())
    }
}

// Writes the raw text of a stored text into `out`, and answers how long it is.
pub fn escape(text: &[u8], out: &mut [u8]) -> Result<usize, Fault>
    ensures { Escapes text.now out.old out.new result }
{
    write_whole(&StoredText { text }, out)
}
