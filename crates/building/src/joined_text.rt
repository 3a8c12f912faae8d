// Joining one text behind another in the text store.
ghost use Rattle.std.specs.Prelude.{IsOkUnless};
ghost use Rattle.base.specs.declared.fault.Fault.TheVariants.{Overfull};
ghost use Rattle.building.specs.Texts.{SeamOf, JoinsText};

use base::Fault;
use store::Store;
use text::{Encoded, first_trailing, last_leading, pair};
use tree::TextRun;

// Joins a text that is held further in front to the one that is held from `start` on, up to the store's end. Where the
// first half of a pair meets the second one, the two become one character.
pub(crate) fn join_text(text: &mut Store<'_, u8>, start: usize, run: TextRun) -> Result<(), Fault>
    ensures joins { JoinsText text.old start run text.new result }
    ensures fault { IsOkUnless result Overfull }
{
    let from = run.start as usize;
    let len = run.len as usize;
    let Some(pair) = seam(text.items(), start, run) else {
        return text.append_within(from, len);
    };
    text.shorten(3);
    text.append(pair.as_bytes())?;
    text.append_within(from + 3, len.saturating_sub(3))
}

// The pair that the text from `start` on makes with a text that is joined to it, in one character.
fn seam(text: &[u8], start: usize, run: TextRun) -> Option<Encoded>
    ensures { SeamOf text.now start run result }
{
    let lead = last_leading(text.get(start..)?)?;
    let trail = first_trailing(run.of(text)?)?;
    Encoded::new(pair(lead, trail)?)
}
