// The surrogates at the edges of a text.
ghost use Rattle.std.specs.Prelude.{◌≡◌, ℕ, List};
ghost use Rattle.text.specs.Points.{last_leading, first_trailing};
ghost use Rattle.text.specs.Stored.{Stores};

use super::decode::three;
use super::surrogates::{leading_of, trailing_of};

// The leading surrogate that a stored text ends with, if it does. A byte that goes on with a character begins none, so
// that its last three bytes are one character where they read as one.
pub fn last_leading(text: &[u8]) -> Option<u32>
    ensures { (us : List ℕ) → Stores text.now us → result ≡ last_leading us }
{
    let [.., a, b, c] = text else {
        return None;
    };
    leading_of(three(*a, *b, *c)?)
}

// The trailing surrogate that a stored text begins with, if it does.
pub fn first_trailing(text: &[u8]) -> Option<u32>
    ensures { (us : List ℕ) → Stores text.now us → result ≡ first_trailing us }
{
    let [a, b, c, ..] = text else {
        return None;
    };
    trailing_of(three(*a, *b, *c)?)
}
