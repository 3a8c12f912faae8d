// Runs without a backslash.
ghost use Rattle.std.specs.Prelude.{◌<◌, length, MatchOption, ◌≢◌, slice_index};
ghost use Rattle.template.specs.Fronts.{Frontless, Parts, PlainAt};

use super::RawPart;
use super::front::{before, split_char};

// What follows the character at the front of the bytes, if it may stand in a run: no ` and no $ before {.
fn past_plain(bytes: &[u8]) -> Option<&[u8]>
    requires { slice_index bytes.now 0 ≢ 0x5C }
    ensures { MatchOption result (Frontless bytes.now) (λ rest. PlainAt bytes.now rest.now) }
{
    let (c, rest) = split_char(bytes)?;
    match c {
        '`' => None,
        '$' if rest.starts_with(b"{") => None,
        _ => Some(rest),
    }
}

// The longest run without a backslash. The caller has looked at the first byte.
pub(crate) fn plain(raw: &[u8]) -> Option<RawPart<'_>>
    requires { (0 < length raw.now) × (slice_index raw.now 0 ≢ 0x5C) }
    ensures { Parts raw.now result }
{
    let mut rest = raw;
    while !matches!(rest, [] | [b'\\', ..]) {
        rest = past_plain(rest)?;
    }
    Some(RawPart::Plain(before(raw, rest)))
}
