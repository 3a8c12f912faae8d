// Reading one character.
ghost use Rattle.std.specs.Prelude.{◌≡◌, ℕ, ◌+◌, ◌<◌, ◌≤◌, length, MatchOption, slice_index};
ghost use Rattle.std.proofs.Math.Utf8.{encode};
ghost use Rattle.text.specs.Character.{lead_length, Begins, Lacks, Reads, One, Two, Three, Four};

use super::character::Character;

// How many bytes a character takes: the number of leading one bits of its first byte, or 1 if there are none.
pub fn character_len(lead: u8) -> usize
    ensures { result ≡ lead_length lead }
{
    match lead.leading_ones() {
        0 => 1,
        n => n as usize,
    }
}

// A function for each length: each has bounds of its own, and a length as a parameter would be matched on again.

// The code point in one byte.
fn one(a: u8) -> Option<u32>
    ensures { MatchOption result ((x : ℕ) → One a x → ⊥) (One a) }
{
    match a {
        0..=0x7F => Some(a as u32),
        _ => None,
    }
}

// The code point in two bytes.
fn two(a: u8, b: u8) -> Option<u32>
    ensures { MatchOption result ((x : ℕ) → Two a b x → ⊥) (Two a b) }
{
    match (a, b) {
        (0xC2..=0xDF, 0x80..=0xBF) => Some((a - 0xC0) as u32 * 0x40 + (b - 0x80) as u32),
        _ => None,
    }
}

// The code point in three bytes.
pub(crate) fn three(a: u8, b: u8, c: u8) -> Option<u32>
    ensures { MatchOption result ((x : ℕ) → Three a b c x → ⊥) (Three a b c) }
{
    let code = match (a, b, c) {
        (0xE0..=0xEF, 0x80..=0xBF, 0x80..=0xBF) => (a - 0xE0) as u32 * 0x1000
            + (b - 0x80) as u32 * 0x40
            + (c - 0x80) as u32,
        _ => return None,
    };
    if code < 0x800 { None } else { Some(code) }
}

// The code point in four bytes.
fn four(a: u8, b: u8, c: u8, d: u8) -> Option<u32>
    ensures { MatchOption result ((x : ℕ) → Four a b c d x → ⊥) (Four a b c d) }
{
    let code = match (a, b, c, d) {
        (0xF0..=0xF7, 0x80..=0xBF, 0x80..=0xBF, 0x80..=0xBF) => (a - 0xF0) as u32 * 0x40000
            + (b - 0x80) as u32 * 0x1000
            + (c - 0x80) as u32 * 0x40
            + (d - 0x80) as u32,
        _ => return None,
    };
    match code {
        0x10000..=0x10FFFF => Some(code),
        _ => None,
    }
}

// The byte at i, or 0, with which no character goes on.
fn byte_at(bytes: &[u8], i: usize) -> u8
    ensures { result ≡ slice_index bytes.now i }
{
    bytes.get(i).copied().unwrap_or(0)
}

// The code point at the front of the bytes, which its first byte says to take `len` bytes.
fn code_point(bytes: &[u8], len: usize) -> Option<u32>
    requires { (len ≡ lead_length (slice_index bytes.now 0)) × (0 < length bytes.now) }
    ensures { MatchOption result (Lacks bytes.now 0x110000) (λ c. (c < 0x110000) × Begins bytes.now c × (length (encode c) ≡ len)) }
{
    let a = byte_at(bytes, 0);
    match len {
        1 => one(a),
        2 => two(a, byte_at(bytes, 1)),
        3 => three(a, byte_at(bytes, 1), byte_at(bytes, 2)),
        4 => four(a, byte_at(bytes, 1), byte_at(bytes, 2), byte_at(bytes, 3)),
        _ => None,
    }
}

// The character that the bytes begin with, if there is one in shortest form.
pub fn first_character(bytes: &[u8]) -> Option<Character<'_>>
    ensures { MatchOption result (Lacks bytes.now 0x110000) (Reads bytes.now) }
{
    let [lead, ..] = bytes else {
        return None;
    };
    let len = character_len(*lead);
    let code = code_point(bytes, len)?;
    Some(Character {
        code,
        bytes: &bytes[0..len],
    })
}
