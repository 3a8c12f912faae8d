// How a node takes its children.
ghost use Rattle.std.specs.Prelude.{◌≡◌, ◌&&◌, bytes_eq};
ghost use Rattle.text.specs.Stored.{stored};
ghost use Rattle.meaning.specs.Methods.{concat_name};
ghost use Rattle.store.specs.Stores.{held_of};
ghost use Rattle.tree.specs.Tree.{Tree, label, own_of, Denotes};
ghost use Rattle.tree.specs.Heap.{look, within, text_at};
ghost use Rattle.deciding.specs.Plans.{role_of};
ghost use Rattle.model.specs.Places.{takes};

use deciding::Place;
use store::Stores;
use tree::{FirstChild, Node, TextRun};

// How the node takes its child: the first one as the object of a static member `concat`, as a callee or as a reference.
pub(crate) fn place_below(stores: &Stores<'_>, node: u32, child: u32) -> Place
    ensures { (t : Tree) → label t ≡ node → Denotes (look (held_of stores.now)) t
        → role_of result ≡ takes (own_of t) child }
{
    if child > 0 {
        return Place::Ordinary;
    }
    match stores.node(node) {
        Some(Node::StaticMember { name, .. }) if is_concat(stores, name) => Place::ConcatObject,
        Some(Node::Call { .. }) => Place::Referred,
        Some(
            Node::Opaque {
                first: FirstChild::Reference,
                ..
            },
        ) => Place::Referred,
        _ => Place::Ordinary,
    }
}

// Whether a piece of the text store lies within it and is `concat`.
fn is_concat(stores: &Stores<'_>, name: TextRun) -> bool
    ensures { result ≡ within (held_of stores.now).text name.start name.len
        && bytes_eq (text_at (held_of stores.now).text name) (stored concat_name) }
{
    let Some(bytes) = stores.text(name) else {
        return false;
    };
    bytes == b"concat".as_slice()
}
