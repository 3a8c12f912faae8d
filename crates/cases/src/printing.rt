// The tree of a payoff in stores, on one line.
ghost use Rattle.std.specs.Prelude.{◌≡◌};
ghost use Rattle.file.specs.Calls.{loaded_stores, loaded_root};

use file::Loaded;
use script::Hex;
use std::fmt;
use store::Stores;
use tree::{BinaryOperator, Child, FirstChild, Node, TextRun, UnaryOperator};

// A tree that `{}` shows.
#[derive(Drop)]
pub struct Shown<'s, 'a> {
    stores: &'s Stores<'a>,
    root: u32,
}

impl<'s, 'a> Shown<'s, 'a> {
    ghost use Rattle.cases.specs.Trees.{shown_stores, shown_root};

    // The tree of the loaded file.
    pub fn new(loaded: &'s Loaded<'a>) -> Shown<'s, 'a>
        ensures stores { shown_stores result ≡ loaded_stores loaded.now }
        ensures root { shown_root result ≡ loaded_root loaded.now }
    {
        Shown::of(loaded.stores(), loaded.root())
    }

    // The tree of a root in stores.
    pub fn of(stores: &'s Stores<'a>, root: u32) -> Shown<'s, 'a>
        ensures stores { shown_stores result ≡ stores.now }
        ensures root { shown_root result ≡ root }
    {
        Shown { stores, root }
    }
}

impl fmt::Display for Shown<'_, '_> {
    fn fmt<W: fmt::Write>(&self, f: &mut fmt::Formatter<W>) -> fmt::Result {
        show(f, self.stores, self.root, self.stores.counts().nodes)
    }
}

// Writes the tree of the node n: what stands before its children, the children, and what stands behind them. No path in
// the tree has more nodes than there are, so that `fuel` lasts. What stands before a child depends on its number. The
// node is looked up here and not handed down, which would take half as much stack again.
fn show<W: fmt::Write>(
    f: &mut fmt::Formatter<W>,
    stores: &Stores<'_>,
    n: u32,
    fuel: usize,
) -> fmt::Result {
    let Some(place) = Place::of(stores, n) else {
        return Ok(());
    };
    place.open(f)?;
    if fuel > 0 {
        for k in 0..place.node.child_count() {
            if let Some(child) = place.child(k) {
                place.separate(f, k)?;
                show(f, stores, child, fuel - 1)?;
            }
        }
    }
    place.close(f)
}

// A node of a tree in stores.
#[derive(Clone, Copy)]
struct Place<'s, 'a> {
    stores: &'s Stores<'a>,
    node: Node,
}

impl<'s, 'a> Place<'s, 'a> {
    // The node n, if there is one.
    fn of(stores: &'s Stores<'a>, n: u32) -> Option<Place<'s, 'a>> {
        Some(Place {
            stores,
            node: stores.node(n)?,
        })
    }

    // The number of the node's child k.
    fn child(self, k: usize) -> Option<u32> {
        match self.node.child(k)? {
            Child::Link(number) => Some(number),
            Child::Entry(i) => self.stores.entries.get(i),
        }
    }

    // Writes a leaf, or what stands before the children of any other node.
    fn open<W: fmt::Write>(self, f: &mut fmt::Formatter<W>) -> fmt::Result {
        match self.node {
            Node::String(text) => write!(f, "s:{}", self.hex(text)),
            Node::Number(bits) => write!(f, "n:{bits:016x}"),
            Node::Boolean(value) => write!(f, "{value}"),
            Node::Null => f.write_str("null"),
            Node::Name(text) => write!(f, "id:{}", self.hex(text)),
            Node::Hole => f.write_str("hole"),
            Node::Spread(_) => f.write_str("(..."),
            Node::Array(_) => f.write_str("["),
            Node::StaticMember { .. } => f.write_str("(."),
            Node::ComputedMember { .. } => f.write_str("(at"),
            Node::Call { .. } => f.write_str("(call"),
            Node::Template(_) => f.write_str("(template"),
            Node::Quasi { raw, cooked } => write!(f, "{}:{}", self.hex(raw), self.hex(cooked)),
            Node::Unary { operator, .. } => f.write_str(operator.printed()),
            Node::Binary { operator, .. } => f.write_str(operator.printed()),
            Node::Opaque { mark, first, .. } => write!(f, "(opaque {mark} {}", first.printed()),
        }
    }

    // Writes a space before each part but the first of an array.
    fn separate<W: fmt::Write>(self, f: &mut fmt::Formatter<W>, k: usize) -> fmt::Result {
        match self.node {
            Node::Array(_) if k == 0 => Ok(()),
            _ => f.write_str(" "),
        }
    }

    // Writes what stands behind the children.
    fn close<W: fmt::Write>(self, f: &mut fmt::Formatter<W>) -> fmt::Result {
        match self.node {
            Node::String(_)
            | Node::Number(_)
            | Node::Boolean(_)
            | Node::Null
            | Node::Name(_)
            | Node::Hole
            | Node::Quasi { .. } => Ok(()),
            Node::Array(_) => f.write_str("]"),
            Node::StaticMember { name, .. } => write!(f, " {})", self.hex(name)),
            Node::Spread(_)
            | Node::ComputedMember { .. }
            | Node::Call { .. }
            | Node::Template(_)
            | Node::Unary { .. }
            | Node::Binary { .. }
            | Node::Opaque { .. } => f.write_str(")"),
        }
    }

    // The bytes of a text. Each text of a payoff's tree lies within the stores.
    fn hex(self, text: TextRun) -> Hex<'s> {
        Hex(self.stores.text(text).unwrap_or_default())
    }
}

// What is printed as a word of its own.
trait Printed {
    fn printed(self) -> &'static str;
}

impl Printed for UnaryOperator {
    fn printed(self) -> &'static str {
        match self {
            UnaryOperator::Plus => "(plus",
            UnaryOperator::Minus => "(minus",
            UnaryOperator::Void => "(void",
        }
    }
}

impl Printed for BinaryOperator {
    fn printed(self) -> &'static str {
        match self {
            BinaryOperator::Exponentiation => "(**",
            BinaryOperator::Subtraction => "(-",
            BinaryOperator::Division => "(/",
        }
    }
}

impl Printed for FirstChild {
    fn printed(self) -> &'static str {
        match self {
            FirstChild::Value => "0",
            FirstChild::Reference => "1",
        }
    }
}
