// What stands behind a backslash: an escape or a line end.
ghost use Rattle.std.specs.Prelude.{◌≡◌, ℕ, ◌<◌, false, ◌∷◌, ◌++◌, length, MatchOption, ◌≢◌, slice_index};
ghost use Rattle.std.proofs.Math.Utf8.{encode};
ghost use Rattle.template.specs.Grammar.{HexDigits, single_value, is_line_terminator};
ghost use Rattle.template.specs.Fronts.{capped, Digits, EndsLine, EscapesTo, Parts};

use super::RawPart;
use super::front::{before, split_char};

// An escape's code point, and what follows the escape.
#[derive(Clone, Copy)]
pub struct EscapeCode<'a> {
    pub code: u32,
    pub rest: &'a [u8],
}

// The first number that is no code point.
const TOO_LARGE: u32 = 0x110000;

// The number that hexadecimal digits write, where one that is too large is TOO_LARGE.
fn hex_number(digits: &[u8]) -> Option<u32>
    ensures { MatchOption result (HexDigits digits.now → ⊥) (λ n. HexDigits digits.now × (n ≡ capped digits.now)) }
{
    let mut number = 0;
    for d in digits {
        let value = (*d as char).to_digit(16)?;
        number = (number * 16 + value).min(TOO_LARGE);
    }
    Some(number)
}

// The number that `count` hexadecimal digits at the front write, and what follows them.
fn leading_digits(bytes: &[u8], count: usize) -> Option<EscapeCode<'_>>
    ensures { Digits count bytes.now result }
{
    let (digits, rest) = bytes.split_at_checked(count)?;
    let code = hex_number(digits)?;
    Some(EscapeCode { code, rest })
}

// \xHH, from behind the x.
fn hex_escape(after: &[u8]) -> Option<EscapeCode<'_>>
    ensures { EscapesTo (0x5C ∷ 0x78 ∷ after.now) result }
{
    leading_digits(after, 2)
}

// The index of the first closing brace.
fn closing_brace(bytes: &[u8]) -> Option<usize>
    ensures { MatchOption result ((k : ℕ) → k < length bytes.now → slice_index bytes.now k ≢ 0x7D) (λ i. (i < length bytes.now) × (slice_index bytes.now i ≡ 0x7D) × ((k : ℕ) → k < i → slice_index bytes.now k ≢ 0x7D)) }
{
    bytes.iter().position(|byte| *byte == b'}')
}

// \u{H..}, from behind the opening brace.
fn braced_escape(after: &[u8]) -> Option<EscapeCode<'_>>
    ensures { EscapesTo (0x5C ∷ 0x75 ∷ 0x7B ∷ after.now) result }
{
    let end = closing_brace(after)?;
    let code = hex_number(&after[..end])?;
    if end == 0 || code >= TOO_LARGE {
        return None;
    }
    Some(EscapeCode {
        code,
        rest: &after[end + 1..],
    })
}

// \uHHHH or \u{H..}, from behind the u.
fn unicode_escape(after: &[u8]) -> Option<EscapeCode<'_>>
    ensures { EscapesTo (0x5C ∷ 0x75 ∷ after.now) result }
{
    match after {
        [b'{', rest @ ..] => braced_escape(rest),
        _ => leading_digits(after, 4),
    }
}

// \0, from behind the 0: no decimal digit may follow.
fn null_escape(after: &[u8]) -> Option<EscapeCode<'_>>
    ensures { EscapesTo (0x5C ∷ 0x30 ∷ after.now) result }
{
    match after {
        [b'0'..=b'9', ..] => None,
        _ => Some(EscapeCode {
            code: 0,
            rest: after,
        }),
    }
}

// What the character c stands for behind a backslash.
fn simple_escape(c: char) -> char
    ensures { result ≡ single_value c }
{
    match c {
        'b' => '\u{8}',
        't' => '\t',
        'n' => '\n',
        'v' => '\u{B}',
        'f' => '\u{C}',
        'r' => '\r',
        _ => c,
    }
}

// The escape that begins with c, which is no line terminator, and goes on with `rest`.
fn escape(c: char, rest: &[u8]) -> Option<EscapeCode<'_>>
    requires { is_line_terminator c ≡ false }
    ensures { EscapesTo (0x5C ∷ (encode c ++ rest.now)) result }
{
    match c {
        '0' => null_escape(rest),
        '1'..='9' => None,
        'x' => hex_escape(rest),
        'u' => unicode_escape(rest),
        _ => Some(EscapeCode {
            code: simple_escape(c) as u32,
            rest,
        }),
    }
}

// What follows the line end that begins with c and goes on with `rest`, if c is a line terminator.
fn past_line_end(c: char, rest: &[u8]) -> Option<&[u8]>
    ensures { MatchOption result (is_line_terminator c ≡ false) (λ more. EndsLine c rest.now more.now) }
{
    match c {
        '\n' | '\u{2028}' | '\u{2029}' => Some(rest),
        '\r' => match rest {
            [b'\n', more @ ..] => Some(more),
            _ => Some(rest),
        },
        _ => None,
    }
}

// The part that begins with a backslash, before `after`.
pub(crate) fn backslash<'a>(raw: &'a [u8], after: &'a [u8]) -> Option<RawPart<'a>>
    requires { raw.now ≡ 0x5C ∷ after.now }
    ensures { Parts raw.now result }
{
    let (c, rest) = split_char(after)?;
    if let Some(more) = past_line_end(c, rest) {
        return Some(RawPart::Continuation(before(raw, more)));
    }
    let found = escape(c, rest)?;
    Some(RawPart::Escaped(before(raw, found.rest), found.code))
}
