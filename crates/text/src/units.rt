// The units of a text.
ghost use Rattle.std.specs.Prelude.{MatchBool};
ghost use Rattle.text.specs.Calls.{Counts, Picks};
ghost use Rattle.text.specs.Stored.{Lawful};

use super::survey::walk;
use base::Fault;

// Whether the bytes are the stored form of a text.
#[tactic(auto, using(crate::proofs::Surveying::lawful_where_surveyed))]
pub fn is_lawful(text: &[u8]) -> bool
    ensures { MatchBool result (Lawful text.now) (Lawful text.now → ⊥) }
{
    walk(text, 0).is_ok()
}

// How many units the text has.
pub fn count_units(text: &[u8]) -> Result<usize, Fault>
    ensures { Counts text.now result }
{
    let found = walk(text, 0)?;
    Ok(found.units)
}

// The unit at n, or None past the end.
pub fn unit_at(text: &[u8], n: usize) -> Result<Option<u16>, Fault>
    ensures { Picks text.now n result }
{
    let found = walk(text, n)?;
    Ok(found.picked)
}
