// The texts of a quasi.
ghost use Rattle.building.specs.Builds.{LacksRoomOrText};
ghost use Rattle.building.specs.Quasis.{WritesQuasi};

use super::appending::run_between;
use base::Fault;
use store::Store;
use template::Extent;
use tree::Node;

// The quasi of the text that is held from `start` on. Its raw text is written behind it where that is another, and else
// stands where the text itself does.
pub(crate) fn write_quasi(text: &mut Store<'_, u8>, start: usize) -> Result<Node, Fault>
    ensures writes { WritesQuasi text.old start text.new result }
    ensures fault { LacksRoomOrText result }
{
    let end = text.count();
    let cooked = run_between(start, end)?;
    if !Extent::of(&text.items()[start..])?.is_escaped() {
        return Ok(Node::Quasi {
            raw: cooked,
            cooked,
        });
    }
    text.append_raw(start)?;
    let raw = run_between(end, text.count())?;
    Ok(Node::Quasi { raw, cooked })
}
