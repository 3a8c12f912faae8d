// Slices of raw template text.
ghost use Rattle.std.specs.Prelude.{◌≡◌, ℕ, true, List, ◌++◌, MatchOption};
ghost use Rattle.std.proofs.Math.Utf8.{scalar, encode};
ghost use Rattle.template.specs.Fronts.{Unreadable};

use text::first_character;

// What stands in the bytes before `rest`, which is their end.
pub(crate) fn before<'a>(bytes: &'a [u8], rest: &[u8]) -> &'a [u8]
    requires { (front : List ℕ) × (bytes.now ≡ front ++ rest.now) }
    ensures { bytes.now ≡ result.now ++ rest.now }
{
    &bytes[..bytes.len() - rest.len()]
}

// The character that the bytes begin with, and what follows it.
pub(crate) fn split_char(bytes: &[u8]) -> Option<(char, &[u8])>
    ensures { MatchOption result (Unreadable bytes.now) (λ p. (scalar p.0 ≡ true) × (bytes.now ≡ encode p.0 ++ p.1.now)) }
{
    let first = first_character(bytes)?;
    let c = char::from_u32(first.code)?;
    Some((c, &bytes[first.bytes.len()..]))
}
