// Bytes as a word of the protocol: lower-case hexadecimal, two digits to a byte.
ghost use Rattle.std.specs.Prelude.{◌≡◌, ◌<◌, Some};
ghost use Rattle.std.specs.Char.{digit_char};
ghost use Rattle.std.specs.Fmt.{WritesOnOk};
ghost use Rattle.script.specs.Hex.{DigitRead, PairRead, hexed, two_digits};
ghost use Rattle.script.specs.Words.{BytesRead};

use super::flaw::Flaw;
use std::alloc::Global;
use std::fmt;

// Bytes that `{}` shows as a word.
#[derive(Clone, Copy, Debug)]
pub struct Hex<'a>(pub &'a [u8]);

impl fmt::Display for Hex<'_> {
    ghost output = { λ h. Some (hexed h.0.now) };

    fn fmt<W: fmt::Write>(&self, f: &mut fmt::Formatter<W>) -> fmt::Result {
        for byte in self.0 {
            write_byte(f, *byte)?;
        }
        Ok(())
    }
}

// By hand: `{:02x}` takes nearly twice as long, and this is most of what an answer costs.
fn write_byte<W: fmt::Write>(f: &mut fmt::Formatter<W>, byte: u8) -> fmt::Result
    ensures { WritesOnOk W.write_str_gives f.old result (two_digits byte) f.new }
{
    f.write_char(digit(byte / 16))?;
    f.write_char(digit(byte % 16))
}

// The bytes that the digits write.
pub fn bytes_of(heap: Global, digits: &[u8]) -> Result<Vec<u8>, Flaw>
    ensures { BytesRead digits.now result }
{
    let mut bytes = Vec::new(heap);
    let mut rest = digits;
    while let [high, low, more @ ..] = rest {
        bytes.push(byte_of(*high, *low).ok_or(Flaw::Malformed)?)?;
        rest = more;
    }
    if rest.is_empty() {
        Ok(bytes)
    } else {
        Err(Flaw::Malformed)
    }
}

// The byte that two digits write.
fn byte_of(high: u8, low: u8) -> Option<u8>
    ensures { PairRead high low result }
{
    let high = value_of(high)?;
    let low = value_of(low)?;
    Some(high * 16 + low)
}

// The value of a lower-case hexadecimal digit. `to_digit`, and the crate `hex`, read capitals too.
fn value_of(digit: u8) -> Option<u8>
    ensures { DigitRead digit result }
{
    match digit {
        b'0'..=b'9' => Some(digit - b'0'),
        b'a'..=b'f' => Some(digit - b'a' + 10),
        _ => None,
    }
}

// The lower-case hexadecimal digit of a value.
fn digit(value: u8) -> char
    requires { value < 16 }
    ensures { result ≡ digit_char value }
{
    if value < 10 {
        char::from(b'0' + value)
    } else {
        char::from(b'a' + (value - 10))
    }
}
