// How long the packet of a payoff is.
use store::Stores;
use tree::{Node, TextRun};

// A file's header, one of its records and one of its list entries, in bytes.
const HEADER: usize = 32;

const RECORD: usize = 20;

const ENTRY: usize = 4;

// How long the file is that holds this tree and nothing else, in which no text is shared.
pub fn packet_len(stores: &Stores<'_>, root: u32) -> usize {
    HEADER.saturating_add(tree_len(stores, root, stores.counts().nodes))
}

// What the node and all below it take. No path in the tree has more nodes than there are, so that `fuel` lasts.
fn tree_len(stores: &Stores<'_>, number: u32, fuel: usize) -> usize {
    let Some(node) = stores.node(number) else {
        return 0;
    };
    let mut len = node_len(node);
    if fuel > 0 {
        for k in 0..u32::MAX {
            let Some(child) = stores.child(number, k) else {
                break;
            };
            len = len.saturating_add(tree_len(stores, child, fuel - 1));
        }
    }
    len
}

// What the node itself takes: its record, its list and its texts.
fn node_len(node: Node) -> usize {
    let more = match node {
        Node::String(text) | Node::Name(text) | Node::StaticMember { name: text, .. } => len_of(
            text,
        ),
        Node::Quasi { raw, cooked } => len_of(raw).saturating_add(len_of(cooked)),
        Node::Array(list)
        | Node::Template(list)
        | Node::Call {
            arguments: list,
            ..
        }
        | Node::Opaque { children: list, .. } => ENTRY * list.len as usize,
        Node::Number(_)
        | Node::Boolean(_)
        | Node::Null
        | Node::Hole
        | Node::Spread(_)
        | Node::ComputedMember { .. }
        | Node::Unary { .. }
        | Node::Binary { .. } => 0,
    };
    RECORD.saturating_add(more)
}

fn len_of(text: TextRun) -> usize {
    text.len as usize
}
