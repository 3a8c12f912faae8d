// A file, cut into its sections.
ghost use Rattle.std.specs.Prelude.{◌≡◌, ℕ, ◌+◌, ◌≤◌, length, MatchBool, slice_index};
ghost use Rattle.std.specs.List.{slice_get};
ghost use Rattle.tree.specs.Heap.{within, children};
ghost use Rattle.tree.specs.Laws.{count};
ghost use Rattle.tree.specs.Lawful.{Finite, LawfulOwn};
ghost use Rattle.tree.specs.Tree.{same, opaque};
ghost use Rattle.file.specs.declared.header.TheConstants.{MAX_NODES};
ghost use Rattle.file.specs.declared.record.TheConstants.{RECORD};
ghost use Rattle.file.specs.Arrays.{AllOfLength};
ghost use Rattle.file.specs.Tables.{Tallies};

use crate::header::Header;
use crate::record::{RECORD, Record, WORD, word};
use base::Fault;
use store::Counts;
use template::cooks_to;
use text::is_lawful;
use tree::{Child, FirstChild, ListRun, Node, Role, TextRun};

// The records of a file's nodes, its entries and its text.
#[derive(Clone, Copy)]
pub struct Sections<'a> {
    pub root: u32,
    pub nodes: &'a [[u8; RECORD]],
    pub entries: &'a [[u8; WORD]],
    pub text: &'a [u8],
    ghost some_node: { 1 ≤ length nodes.now },
    ghost few_nodes: { length nodes.now ≤ MAX_NODES },
    // Each record has RECORD bytes: its type says so too, but a proof needs it as a fact.
    ghost whole_records: { AllOfLength RECORD nodes.now },
}

impl<'a> Sections<'a> {
    ghost use Rattle.file.specs.Lawful.{LawfulNode};
    ghost use Rattle.file.specs.Found.{laid};
    ghost use Rattle.file.specs.Steps.{CutsInto, FitsIn, NodeAt, TextIn, CookedIn, NodeChecked, Reached, AllReached};

    // Cuts a file into its sections.
    pub(crate) fn cut(file: &'a [u8]) -> Result<Sections<'a>, Fault>
        ensures { CutsInto file.now result }
    {
        let header = Header::read(file)?;
        if !header.is_in_limits() || !header.is_in_place(file.len()) {
            return Err(Fault::BadSizes);
        }
        let (nodes, _) = file[header.nodes.offset..header.entries.offset].as_chunks();
        let (entries, _) = file[header.entries.offset..header.text.offset].as_chunks();
        Ok(Sections {
            root: header.root,
            nodes,
            entries,
            text: &file[header.text.offset..],
        })
    }

    // Whether stores with these rooms hold it all.
    pub(crate) fn fits(&self, rooms: Counts) -> bool
        ensures { MatchBool result (FitsIn self.now rooms) (FitsIn self.now rooms → ⊥) }
    {
        self.nodes.len() <= rooms.nodes
            && self.entries.len() <= rooms.entries
            && self.text.len() <= rooms.text
    }

    // The node of record x, where there is one.
    pub(crate) fn node(&self, x: usize) -> Option<Node>
        ensures { NodeAt (laid self.now) x result }
    {
        Node::try_from(Record::from(self.nodes.get(x)?)).ok()
    }

    // The number of the node's child k.
    fn child(&self, node: Node, k: usize) -> Option<u32>
        ensures { result ≡ slice_get (children (laid self.now).entries node) k }
    {
        match node.child(k)? {
            Child::Link(number) => Some(number),
            Child::Entry(i) => Some(word(self.entries.get(i)?, 0)),
        }
    }

    // Whether the list lies within the entries.
    fn has_list(&self, list: ListRun) -> bool
        ensures { result ≡ within (laid self.now).entries list.start list.len }
    {
        list.start as usize + list.len as usize <= self.entries.len()
    }

    // Whether the text lies within its section, and is lawful.
    fn has_text(&self, run: TextRun) -> bool
        ensures { MatchBool result (TextIn (laid self.now).text run) (TextIn (laid self.now).text run → ⊥) }
    {
        run.of(self.text).is_some_and(|text| is_lawful(text))
    }

    // Whether both texts lie within their section, and the first cooks to the second.
    fn has_cooked(&self, raw: TextRun, cooked: TextRun) -> bool
        ensures { MatchBool result (CookedIn (laid self.now).text raw cooked) (CookedIn (laid self.now).text raw cooked → ⊥) }
    {
        match (raw.of(self.text), cooked.of(self.text)) {
            (Some(raw), Some(cooked)) => cooks_to(raw, cooked),
            _ => false,
        }
    }

    // Whether the node is lawful in its own fields and texts.
    fn is_lawful(&self, node: Node) -> bool
        ensures { MatchBool result (LawfulNode (laid self.now).entries (laid self.now).text node) (LawfulNode (laid self.now).entries (laid self.now).text node → ⊥) }
    {
        match node {
            Node::String(text) | Node::Name(text) => self.has_text(text),
            Node::StaticMember { name, .. } => self.has_text(name),
            Node::Quasi { raw, cooked } => self.has_cooked(raw, cooked),
            Node::Number(bits) => is_finite(bits),
            Node::Array(list)
            | Node::Call {
                arguments: list,
                ..
            } => self.has_list(list),
            Node::Template(list) => self.has_list(list) && list.len % 2 == 1,
            Node::Opaque {
                children,
                first,
                ..
            } => self.has_list(children) && may_begin(first, children.len),
            Node::Boolean(_)
            | Node::Null
            | Node::Hole
            | Node::Spread(_)
            | Node::ComputedMember { .. }
            | Node::Unary { .. }
            | Node::Binary { .. } => true,
        }
    }

    // The node of record x, where that is lawful on its own.
    pub(crate) fn lawful_node(&self, x: usize) -> Option<Node>
        ensures { NodeChecked (laid self.now) x result }
    {
        let node = self.node(x)?;
        self.is_lawful(node).then_some(node)
    }

    // Whether the child of the node x may stand in this role: it has a lower number, and is of a sort that may.
    fn reaches(&self, x: usize, role: Role, child: u32) -> bool
        ensures { MatchBool result (Reached (laid self.now) x role child) (Reached (laid self.now) x role child → ⊥) }
    {
        let child = child as usize;
        child < x
            && self
                .node(child)
                .is_some_and(|node| role.admits(node.sort()))
    }

    // Counts the node x as a parent of each of its children, and answers whether it may have them all. A child's role
    // is asked by its number.
    pub(crate) fn follow(&self, x: usize, node: Node, parents: &mut [u8]) -> bool
        ensures reached { MatchBool result (AllReached (laid self.now) x node) (AllReached (laid self.now) x node → ⊥) }
        ensures counted { (f : ℕ → ℕ) → Tallies parents.old f → Tallies parents.new (λ y. f y + count y (children (laid self.now).entries node)) }
    {
        let mut all = true;
        for k in 0..node.child_count() {
            if let Some(child) = self.child(node, k) {
                tally(parents, child);
                all &= self.reaches(x, node.role(k), child);
            }
        }
        all
    }
}

// Whether these are the bits of a finite number: the exponent is not all ones.
fn is_finite(bits: u64) -> bool
    ensures { MatchBool result (Finite bits) (Finite bits → ⊥) }
{
    bits / 0x10_0000_0000_0000 % 0x800 != 0x7FF
}

// Whether an opaque node may have so many children: a reference needs one.
fn may_begin(first: FirstChild, children: u32) -> bool
    ensures { MatchBool result (LawfulOwn (opaque 0 first) children) (LawfulOwn (opaque 0 first) children → ⊥) }
{
    match first {
        FirstChild::Value => true,
        FirstChild::Reference => children > 0,
    }
}

// Counts one parent more for a node, up to 255. The index is compared here, since no proof knows what a slice holds
// after `get_mut`.
fn tally(parents: &mut [u8], child: u32)
    ensures { (f : ℕ → ℕ) → Tallies parents.old f → Tallies parents.new (λ y. f y + same y child) }
{
    let child = child as usize;
    if child < parents.len() {
        parents[child] = parents[child].saturating_add(1);
    }
}
