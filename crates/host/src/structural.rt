ghost use Rattle.std.specs.Prelude.{◌≡◌, map};
ghost use Rattle.std.specs.List.{list_all};
ghost use Rattle.tree.specs.Heap.{look};
ghost use Rattle.store.specs.Stores.{held_of};
ghost use Rattle.host.specs.Structural.{literal_or_hole_at, is_among, own_names};

use super::host::Host;
use super::value_type::ValueType;
use store::Stores;
use tree::{Node, UnaryOperator};

// The host that goes by what a node says of itself, and of an array by what its elements say of themselves.
#[derive(Clone, Copy)]
pub struct Structural<'a> {
    bound: &'a [&'a [u8]],
}

impl<'a> Structural<'a> {
    ghost use Rattle.host.specs.Structural.{bound_of, is_own_name};

    // The host that takes these names to be bound, each in its stored form.
    pub fn new(bound: &'a [&'a [u8]]) -> Structural<'a>
        ensures { bound_of result ≡ map (λ bound. bound.now) bound.now }
    {
        Structural { bound }
    }

    // Whether the name is one of the language's own, and not bound.
    #[tactic(auto, unfolding(crate::specs::Structural::is_own_name))]
    fn is_own_name(&self, name: &[u8]) -> bool
        ensures { result ≡ is_own_name (bound_of self.now) name.now }
    {
        is_known(name) && !is_among(name, self.bound)
    }
}

impl Host for Structural<'_> {
    ghost use Rattle.host.specs.Structural.{bound_of, structural_answers, structural_effects, structural_type, structural_global};

    ghost answers = { λ s. structural_answers (bound_of s) };

    fn may_have_side_effects(&self, stores: &Stores<'_>, node: u32) -> bool
        ensures { result ≡ structural_effects (held_of stores.now) node }
    {
        let Some(Node::Array(elements)) = stores.node(node) else {
            return !is_literal_or_hole(stores, node);
        };
        let Some(elements) = stores.list(elements) else {
            return true;
        };
        !are_literals_or_holes(stores, elements)
    }

    fn value_type(&self, stores: &Stores<'_>, node: u32) -> ValueType
        ensures { result ≡ structural_type (held_of stores.now) node }
    {
        match stores.node(node) {
            Some(Node::String(text)) if stores.text(text).is_some() => ValueType::String,
            Some(Node::Template(pieces)) if stores.list(pieces).is_some() => ValueType::String,
            Some(Node::Number(_)) => ValueType::Number,
            Some(Node::Boolean(_)) => ValueType::Boolean,
            Some(Node::Null) => ValueType::Null,
            Some(Node::Array(elements)) if stores.list(elements).is_some() => ValueType::Object,
            Some(
                Node::Unary {
                    operator: UnaryOperator::Void,
                    ..
                },
            ) => ValueType::Undefined,
            _ => ValueType::Undetermined,
        }
    }

    fn is_global_reference(&self, stores: &Stores<'_>, node: u32) -> bool
        ensures { result ≡ structural_global (bound_of self.now) (held_of stores.now) node }
    {
        let Some(Node::Name(name)) = stores.node(node) else {
            return false;
        };
        let Some(name) = stores.text(name) else {
            return false;
        };
        self.is_own_name(name)
    }
}

// Whether the node is a literal or a hole.
fn is_literal_or_hole(stores: &Stores<'_>, node: u32) -> bool
    ensures { result ≡ literal_or_hole_at (look (held_of stores.now)) node }
{
    match stores.node(node) {
        Some(Node::String(text)) => stores.text(text).is_some(),
        Some(Node::Number(_) | Node::Boolean(_) | Node::Null | Node::Hole) => true,
        _ => false,
    }
}

// Whether each of the nodes is a literal or a hole.
fn are_literals_or_holes(stores: &Stores<'_>, nodes: &[u32]) -> bool
    ensures { result ≡ list_all (literal_or_hole_at (look (held_of stores.now))) nodes.now }
{
    nodes.iter().all(|&node| is_literal_or_hole(stores, node))
}

// Whether the name is one of the language's own that the host knows.
fn is_known(name: &[u8]) -> bool
    ensures { result ≡ is_among name.now own_names }
{
    matches!(name, b"undefined" | b"Math" | b"Array")
}

// Whether the text is one of the others.
fn is_among(text: &[u8], others: &[&[u8]]) -> bool
    ensures { result ≡ is_among text.now (map (λ other. other.now) others.now) }
{
    others.contains(&text)
}
