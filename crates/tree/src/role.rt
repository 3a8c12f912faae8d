ghost use Rattle.std.specs.Prelude.{◌≡◌, length};
ghost use Rattle.std.specs.List.{slice_get};

// What a node is to its parent: an expression, or one of three that stand only in certain places.
#[derive(Clone, Copy, Debug, PartialEq, Eq)]
pub enum Sort {
    IsExpression,
    IsHole,
    IsSpread,
    IsQuasi,
}

// Where a child stands: among the elements of an array or the arguments of a call, as a quasi of a template, or where
// only an expression may.
#[derive(Clone, Copy, Debug, PartialEq, Eq)]
pub enum Role {
    Operand,
    Element,
    Argument,
    QuasiPart,
}

impl Role {
    ghost use Rattle.tree.specs.Lawful.{admits};

    // Whether a node of this sort may stand here.
    pub fn admits(self, sort: Sort) -> bool
        ensures { result ≡ admits self sort }
    {
        match (self, sort) {
            (Role::Operand, Sort::IsExpression) => true,
            (Role::Element, Sort::IsExpression | Sort::IsHole | Sort::IsSpread) => true,
            (Role::Argument, Sort::IsExpression | Sort::IsSpread) => true,
            (Role::QuasiPart, Sort::IsQuasi) => true,
            _ => false,
        }
    }
}

// Where a node names a child: in its record, or in an entry of the list store.
#[derive(Clone, Copy)]
pub enum Child {
    Link(u32),
    Entry(usize),
}

// The links in a record itself, at most two, so that no list is needed.
#[derive(Clone, Copy)]
pub(crate) enum Links {
    Zero,
    One(u32),
    Two(u32, u32),
}

impl Links {
    ghost use Rattle.tree.specs.Roles.{linked_by};

    pub(crate) fn count(self) -> usize
        ensures { result ≡ length (linked_by self) }
    {
        match self {
            Links::Zero => 0,
            Links::One(_) => 1,
            Links::Two(_, _) => 2,
        }
    }

    pub(crate) fn at(self, k: usize) -> Option<u32>
        ensures { result ≡ slice_get (linked_by self) k }
    {
        match (self, k) {
            (Links::One(x) | Links::Two(x, _), 0) => Some(x),
            (Links::Two(_, y), 1) => Some(y),
            _ => None,
        }
    }
}
