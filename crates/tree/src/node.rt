ghost use Rattle.std.specs.Prelude.{◌≡◌, ◌+◌, length};

use super::role::{Child, Links, Role, Sort};
use super::run::{ListRun, TextRun};

#[derive(Clone, Copy, Debug, PartialEq, Eq)]
pub enum UnaryOperator {
    Plus,
    Minus,
    Void,
}

#[derive(Clone, Copy, Debug, PartialEq, Eq)]
pub enum BinaryOperator {
    Exponentiation,
    Subtraction,
    Division,
}

// What an opaque node does with its first child: run it for its value, or take it as a reference, as `delete` and
// tagged templates do.
#[derive(Clone, Copy, Debug, PartialEq, Eq)]
pub enum FirstChild {
    Value,
    Reference,
}

// The record of a node. Other nodes are named by their numbers.
#[derive(Clone, Copy)]
pub enum Node {
    String(TextRun),
    // The 64 bits of a finite number.
    Number(u64),
    Boolean(bool),
    Null,
    Name(TextRun),
    // An element that is not there.
    Hole,
    Spread(u32),
    Array(ListRun),
    StaticMember {
        object: u32,
        name: TextRun,
    },
    ComputedMember {
        object: u32,
        key: u32,
    },
    Call {
        callee: u32,
        arguments: ListRun,
    },
    // Quasis and expressions in turn, a quasi first and last.
    Template(ListRun),
    Quasi {
        raw: TextRun,
        cooked: TextRun,
    },
    Unary {
        operator: UnaryOperator,
        operand: u32,
    },
    Binary {
        operator: BinaryOperator,
        left: u32,
        right: u32,
    },
    // An expression that only the world knows, by its mark.
    Opaque {
        children: ListRun,
        mark: u32,
        first: FirstChild,
    },
}

impl Node {
    ghost use Rattle.tree.specs.Heap.{links, list_of, with_link};
    ghost use Rattle.tree.specs.Roles.{sort_of_node, role_of_node, linked_by, NamesChild};

    // What the node is to its parent.
    pub fn sort(self) -> Sort
        ensures { result ≡ sort_of_node self }
    {
        match self {
            Node::Hole => Sort::IsHole,
            Node::Spread(_) => Sort::IsSpread,
            Node::Quasi { .. } => Sort::IsQuasi,
            Node::String(_)
            | Node::Number(_)
            | Node::Boolean(_)
            | Node::Null
            | Node::Name(_)
            | Node::Array(_)
            | Node::StaticMember { .. }
            | Node::ComputedMember { .. }
            | Node::Call { .. }
            | Node::Template(_)
            | Node::Unary { .. }
            | Node::Binary { .. }
            | Node::Opaque { .. } => Sort::IsExpression,
        }
    }

    // Where the node's child k stands.
    pub fn role(self, k: usize) -> Role
        ensures { result ≡ role_of_node self k }
    {
        match self {
            Node::Array(_) => Role::Element,
            Node::Call { .. } if k > 0 => Role::Argument,
            Node::Template(_) if k % 2 == 0 => Role::QuasiPart,
            _ => Role::Operand,
        }
    }

    // How many children the node names.
    pub fn child_count(self) -> usize
        ensures { result ≡ length (links self) + (list_of self).len }
    {
        self.links().count() + self.list().len as usize
    }

    // Where the node names its child k, links before list.
    pub fn child(self, k: usize) -> Option<Child>
        ensures { NamesChild self k result }
    {
        let links = self.links();
        if let Some(number) = links.at(k) {
            return Some(Child::Link(number));
        }
        let list = self.list();
        let k = k - links.count();
        if k < list.len as usize {
            Some(Child::Entry(list.start as usize + k))
        } else {
            None
        }
    }

    // The record with its link k changed.
    pub fn with_link(self, k: usize, to: u32) -> Node
        ensures { result ≡ with_link self k to }
    {
        match self {
            Node::Spread(_) => Node::Spread(to),
            Node::StaticMember { name, .. } => Node::StaticMember { object: to, name },
            Node::ComputedMember { key, .. } if k == 0 => Node::ComputedMember { object: to, key },
            Node::ComputedMember { object, .. } => Node::ComputedMember { object, key: to },
            Node::Call { arguments, .. } => Node::Call {
                callee: to,
                arguments,
            },
            Node::Unary { operator, .. } => Node::Unary {
                operator,
                operand: to,
            },
            Node::Binary {
                operator,
                right,
                ..
            } if k == 0 => Node::Binary {
                operator,
                left: to,
                right,
            },
            Node::Binary { operator, left, .. } => Node::Binary {
                operator,
                left,
                right: to,
            },
            _ => self,
        }
    }

    // The numbers that the record itself links to.
    fn links(self) -> Links
        ensures { linked_by result ≡ links self }
    {
        match self {
            Node::Spread(x)
            | Node::StaticMember { object: x, .. }
            | Node::Call { callee: x, .. }
            | Node::Unary { operand: x, .. } => Links::One(x),
            Node::ComputedMember { object: x, key: y }
            | Node::Binary {
                left: x,
                right: y,
                ..
            } => Links::Two(x, y),
            _ => Links::Zero,
        }
    }

    // The node's piece of the list store, empty for a kind that has none.
    fn list(self) -> ListRun
        ensures { result ≡ list_of self }
    {
        match self {
            Node::Array(list)
            | Node::Call {
                arguments: list,
                ..
            }
            | Node::Template(list)
            | Node::Opaque { children: list, .. } => list,
            _ => ListRun::new(0, 0),
        }
    }
}
