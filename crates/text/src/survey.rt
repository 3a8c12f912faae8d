// What a text holds, found in one walk.
ghost use Rattle.std.specs.Prelude.{◌≡◌, ℕ, ◌+◌, ◌-◌, ◌^◌, ◌<◌, true, false, List, ◌++◌, length, MatchOption, slice_index};
ghost use Rattle.std.specs.List.{slice_get};
ghost use Rattle.text.specs.Survey.{Surveyed};
ghost use Rattle.text.specs.Utf16.{leading, utf16};

use super::reader::Characters;
use super::surrogates::leading_of;
use base::Fault;

// What is found: how many units a text has, the one at a place, and the leading surrogate that it ends with.
#[derive(Clone, Copy)]
pub struct Survey {
    pub units: usize,
    pub picked: Option<u16>,
    pub lead: Option<u32>,
}

// How many units a code point takes.
fn unit_count(code: u32) -> usize
    ensures { result ≡ length (utf16 code) }
{
    if code < 0x10000 { 1 } else { 2 }
}

// The unit of a code point at k, which is below their number.
fn unit_of(code: u32, k: usize) -> u16
    requires { (code < 0x110000) × (k < length (utf16 code)) }
    ensures { result ≡ slice_index (utf16 code) k }
{
    match (code, k) {
        (0..=0xFFFF, _) => code as u16,
        (_, 0) => ((code - 0x10000) / 0x400 + 0xD800) as u16,
        _ => ((code - 0x10000) % 0x400 + 0xDC00) as u16,
    }
}

// What is found once one more code point is read.
fn step(found: Survey, code: u32, n: usize) -> Survey
    requires { (code < 0x110000) × (found.units + 2 < 2 ^ 64) }
    ensures units { result.units ≡ found.units + length (utf16 code) }
    ensures picked { (us : List ℕ) → found.units ≡ length us → found.picked ≡ slice_get us n → result.picked ≡ slice_get (us ++ utf16 code) n }
    ensures lead { MatchOption result.lead (leading code ≡ false) (λ h. (h ≡ code) × (leading code ≡ true)) }
{
    let units = found.units + unit_count(code);
    let picked = if n >= found.units && n < units {
        Some(unit_of(code, n - found.units))
    } else {
        found.picked
    };
    Survey {
        units,
        picked,
        lead: leading_of(code),
    }
}

// Walks over the whole text, and finds its unit at n.
pub(crate) fn walk(text: &[u8], n: usize) -> Result<Survey, Fault>
    ensures { Surveyed text.now n result }
{
    let mut characters = Characters::new(text);
    let mut found = Survey {
        units: 0,
        picked: None,
        lead: None,
    };
    while let Some(c) = characters.next()? {
        found = step(found, c.code, n);
    }
    Ok(found)
}
