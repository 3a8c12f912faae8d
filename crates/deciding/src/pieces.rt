// How much space a template takes, by the parts that it is made of.
ghost use Rattle.std.specs.Prelude.{◌≡◌};
ghost use Rattle.store.specs.Stores.{held_of};
ghost use Rattle.deciding.specs.Reached.{IsEmpty, ReadsText, Ends, ReadsPart, ReadsAll, TakesQuasi, TakesAll};

use store::{Counts, Stores};
use template::Extent;
use tree::{ListRun, Node, TextRun};

// A template as far as its parts are read: how many expressions there are, how many bytes the quasis before them take,
// and the quasi that has not ended.
#[derive(Clone, Copy)]
pub(crate) struct Pieces {
    expressions: usize,
    bytes: usize,
    quasi: Extent,
}

impl Pieces {
    // Nothing is read.
    pub fn empty() -> Pieces
        ensures { IsEmpty result }
    {
        Pieces {
            expressions: 0,
            bytes: 0,
            quasi: Extent::empty(),
        }
    }

    // A text goes on with the quasi.
    pub fn with_text(self, stores: &Stores<'_>, text: TextRun) -> Pieces
        ensures { ReadsText (held_of stores.now) text self result }
    {
        let Some(text) = stores.text(text) else {
            return self;
        };
        let Ok(extent) = Extent::of(text) else {
            return self;
        };
        Pieces {
            quasi: self.quasi.followed_by(extent),
            ..self
        }
    }

    // An expression ends the quasi.
    fn with_expression(self) -> Pieces
        ensures { Ends self result }
    {
        Pieces {
            expressions: self.expressions.saturating_add(1),
            bytes: self.bytes.saturating_add(self.quasi_bytes()),
            quasi: Extent::empty(),
        }
    }

    // A string's text is part of a quasi, and a spread has no place in a template. Any other argument is an expression.
    fn with_argument(self, stores: &Stores<'_>, argument: u32) -> Pieces
        ensures { ReadsPart (held_of stores.now) argument self result }
    {
        let Some(node) = stores.node(argument) else {
            return self;
        };
        match node {
            Node::String(text) => self.with_text(stores, text),
            Node::Spread(_) => self,
            _ => self.with_expression(),
        }
    }

    // The arguments of a call, in order.
    pub fn with_arguments(self, stores: &Stores<'_>, arguments: ListRun) -> Pieces
        ensures { ReadsAll (held_of stores.now) arguments self result }
    {
        let Some(arguments) = stores.list(arguments) else {
            return self;
        };
        let mut pieces = self;
        for &argument in arguments {
            pieces = pieces.with_argument(stores, argument);
        }
        pieces
    }

    // How many bytes the quasi takes: its text is written, and its raw text where that is another.
    fn quasi_bytes(self) -> usize
        ensures { TakesQuasi self result }
    {
        let raw = if self.quasi.is_escaped() {
            self.quasi.raw_len()
        } else {
            0
        };
        self.quasi.stored_len().saturating_add(raw)
    }

    // How much all of it takes, where nothing is behind: a template and one quasi more than there are expressions.
    // Without an expression it is a string.
    pub fn need(self) -> Counts
        ensures { TakesAll self result }
    {
        if self.expressions == 0 {
            return Counts {
                nodes: 1,
                entries: 0,
                text: self.quasi.stored_len(),
            };
        }
        Counts {
            nodes: self.expressions.saturating_add(2),
            entries: self.expressions.saturating_mul(2).saturating_add(1),
            text: self.bytes.saturating_add(self.quasi_bytes()),
        }
    }
}
