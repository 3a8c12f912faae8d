// Joining two texts.
ghost use Rattle.std.specs.Prelude.{◌+◌, ◌<◌, ◌≤◌, ◌++◌, length, MatchBool};
ghost use Rattle.text.specs.Calls.{Joins};
ghost use Rattle.text.specs.Join.{Meets, Written};

use super::decode::first_character;
use super::encoded::Encoded;
use super::surrogates::pair;
use super::survey::walk;
use base::{Fault, append};

// The pair that two texts make where they meet: the left one ends with its first half, and the right one begins with
// the second.
fn seam(left: &[u8], right: &[u8]) -> Result<Option<u32>, Fault>
    ensures { Meets left.now right.now result }
{
    let before = walk(left, 0)?;
    walk(right, 0)?;
    let Some(lead) = before.lead else {
        return Ok(None);
    };
    let Some(c) = first_character(right) else {
        return Ok(None);
    };
    Ok(pair(lead, c.code))
}

// Whether three runs fit a room. Their lengths are not added, since the sum may be past the largest number.
fn fits(room: usize, front: &[u8], middle: &[u8], back: &[u8]) -> bool
    ensures { MatchBool result (length front.now + length middle.now + length back.now ≤ room) (room < length front.now + length middle.now + length back.now) }
{
    front.len() <= room
        && middle.len() <= room - front.len()
        && back.len() <= room - front.len() - middle.len()
}

// Writes three runs, one behind the other, or refuses them all.
fn write(out: &mut [u8], front: &[u8], middle: &[u8], back: &[u8]) -> Result<usize, Fault>
    ensures { Written out.old (front.now ++ middle.now ++ back.now) out.new result }
{
    if !fits(out.len(), front, middle, back) {
        return Err(Fault::Overfull);
    }
    let at = append(out, 0, front)?;
    let at = append(out, at, middle)?;
    append(out, at, back)
}

// Writes the left text's units and then the right one's in stored form: where a high and a low surrogate meet, the two
// become one character of four bytes.
pub fn join(left: &[u8], right: &[u8], out: &mut [u8]) -> Result<usize, Fault>
    ensures { Joins left.now right.now out.old out.new result }
{
    let Some(code) = seam(left, right)? else {
        return write(out, left, &[], right);
    };
    let Some(pair) = Encoded::new(code) else {
        return Err(Fault::Malformed);
    };
    write(out, &left[0..left.len() - 3], pair.as_bytes(), &right[3..])
}
