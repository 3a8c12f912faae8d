ghost use Rattle.std.specs.Prelude.{◌≡◌};
ghost use Rattle.std.specs.List.{slice_get};
ghost use Rattle.tree.specs.Heap.{relinked};
ghost use Rattle.tree.specs.Pieces.{PieceOf};
ghost use Rattle.store.specs.Held.{Refilled};

use super::store::Store;
use tree::{Child, ListRun, Node, TextRun};

// The three stores of a payoff's tree.
#[derive(Drop)]
pub struct Stores<'a> {
    pub nodes: Store<'a, Node>,
    pub entries: Store<'a, u32>,
    pub text: Store<'a, u8>,
}

// How many nodes, entries and bytes there are, or have room.
#[derive(Clone, Copy, PartialEq, Eq, Debug)]
pub struct Counts {
    pub nodes: usize,
    pub entries: usize,
    pub text: usize,
}

impl<'a> Stores<'a> {
    ghost use Rattle.store.specs.Stores.{held_of, counts_of, rooms_of, Shows, ShowsChild};

    // How much the stores hold.
    pub fn counts(&self) -> Counts
        ensures { result ≡ counts_of self.now }
    {
        Counts {
            nodes: self.nodes.count(),
            entries: self.entries.count(),
            text: self.text.count(),
        }
    }

    // How much the stores have room for. Like `counts`, but the stores are of three types, and no closure serves three.
    pub fn rooms(&self) -> Counts
        ensures { result ≡ rooms_of self.now }
    {
        Counts {
            nodes: self.nodes.room(),
            entries: self.entries.room(),
            text: self.text.room(),
        }
    }

    // The record of the node n: where n denotes a tree, what its topmost node says.
    pub fn node(&self, n: u32) -> Option<Node>
        ensures held { result ≡ slice_get (held_of self.now).nodes n }
        ensures tree { Shows (held_of self.now) n result }
    {
        self.nodes.get(n as usize)
    }

    // The entries of a list, or nothing where it does not lie within the store.
    pub fn list(&self, run: ListRun) -> Option<&[u32]>
        ensures { PieceOf (held_of self.now).entries run.start run.len result }
    {
        run.of(self.entries.items())
    }

    // The bytes of a text, or nothing where it does not lie within the store.
    pub fn text(&self, run: TextRun) -> Option<&[u8]>
        ensures { PieceOf (held_of self.now).text run.start run.len result }
    {
        run.of(self.text.items())
    }

    // The number of the node's child k, links before list: where something is stored at n, that of its children.
    pub fn child(&self, n: u32, k: u32) -> Option<u32>
        ensures { ShowsChild (held_of self.now) n k result }
    {
        let node = self.node(n)?;
        match node.child(k as usize)? {
            Child::Link(child) => Some(child),
            Child::Entry(i) => self.entries.get(i),
        }
    }

    // Changes the link to a child of the node n to another number.
    pub fn relink(&mut self, n: u32, child: u32, to: u32)
        ensures nodes { Refilled self.old.nodes (relinked (held_of self.old) n child to).nodes self.new.nodes }
        ensures entries { Refilled self.old.entries (relinked (held_of self.old) n child to).entries self.new.entries }
        ensures text { self.new.text ≡ self.old.text }
    {
        let Some(node) = self.node(n) else {
            return;
        };
        match node.child(child as usize) {
            Some(Child::Link(_)) => self
                .nodes
                .set(n as usize, node.with_link(child as usize, to)),
            Some(Child::Entry(i)) => self.entries.set(i, to),
            None => {}
        }
    }
}
