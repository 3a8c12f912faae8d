// The records of a file, once they are found lawful.
ghost use Rattle.std.specs.Prelude.{◌≡◌, ℕ, ◌<◌, ◌≤◌, length, MatchBool, slice_index};
ghost use Rattle.store.specs.Held.{room, Refilled};
ghost use Rattle.store.specs.Stores.{rooms_of};
ghost use Rattle.file.specs.Found.{laid, AllRecords, LinksCounted};
ghost use Rattle.file.specs.Tables.{Lowest, Right, right};

use crate::header::MAX_NODES;
use crate::record::{Record, word};
use crate::sections::Sections;
use base::Fault;
use store::{Store, Stores};
use tree::{Node, Sort};

// Sections of which each record is that of a node that is lawful on its own. How many parents each node has is counted,
// and the lowest node with a wrong link is known.
#[derive(Clone, Copy)]
pub struct Records<'a, 't> {
    pub sections: Sections<'a>,
    pub parents: &'t [u8],
    pub wrong: Option<usize>,
    ghost lawful: { ∥ AllRecords (laid sections) ∥₁ },
    ghost long: { length parents.now ≡ length sections.nodes.now },
    ghost counted: { ∥ LinksCounted (laid sections) parents.now wrong ∥₁ },
}

impl<'a, 't> Records<'a, 't> {
    ghost use Rattle.file.specs.Lawful.{LawfulRoot};
    ghost use Rattle.file.specs.Steps.{ChecksRecords, LinksChecked, FitsIn, CopiesNodes, CopiesTo};

    // Asks of each record whether it is that of a node which is lawful on its own, by number, as a refusal names it.
    // The table of zeros is for the parents.
    pub(crate) fn check(
        sections: Sections<'a>,
        table: &'t mut [u8; MAX_NODES],
    ) -> Result<Records<'a, 't>, Fault>
        requires { (y : ℕ) → slice_index table.old y ≡ 0 }
        ensures { ChecksRecords sections.entry result }
    {
        let parents = &mut table[..sections.nodes.len()];
        let mut wrong = None;
        for x in 0..sections.nodes.len() {
            let node = sections.lawful_node(x).ok_or(Fault::BadRecord(x as u32))?;
            if !sections.follow(x, node, parents) {
                wrong = wrong.or(Some(x));
            }
        }
        Ok(Records {
            sections,
            parents,
            wrong,
        })
    }

    // Asks whether the root is lawful, and then of each node whether its links and its number of parents are.
    pub(crate) fn check_links(&self) -> Result<(), Fault>
        ensures { LinksChecked (laid self.now.sections) result }
    {
        if !self.has_root() {
            return Err(Fault::BadLink((self.parents.len() - 1) as u32));
        }
        match self.lowest_wrong() {
            Some(x) => Err(Fault::BadLink(x as u32)),
            None => Ok(()),
        }
    }

    // Whether the root is the last node, and an expression.
    fn has_root(&self) -> bool
        ensures { MatchBool result (LawfulRoot (laid self.now.sections)) (LawfulRoot (laid self.now.sections) → ⊥) }
    {
        let root = self.sections.root as usize;
        root + 1 == self.sections.nodes.len()
            && self
                .sections
                .node(root)
                .is_some_and(|node| matches!(node.sort(), Sort::IsExpression))
    }

    // The lowest node that has a wrong link or a wrong number of parents.
    fn lowest_wrong(&self) -> Option<usize>
        ensures { Lowest (Right self.now.parents.now self.now.wrong) (length self.now.parents.now) result }
    {
        (0..self.parents.len()).find(|&x| !self.is_right(x))
    }

    // Whether the node x has no wrong link, as far as is known, and as many parents as it should: one, and the last
    // node none.
    fn is_right(&self, x: usize) -> bool
        requires { x < length self.now.parents.now }
        ensures { result ≡ right self.now.parents.now self.now.wrong x }
    {
        let due = u8::from(x + 1 < self.parents.len());
        self.wrong != Some(x) && self.parents[x] == due
    }

    // Puts all into the stores, in the place of what they held.
    pub(crate) fn copy_to(&self, stores: &mut Stores<'_>)
        requires { FitsIn self.now.sections (rooms_of stores.old) }
        ensures { CopiesTo (laid self.now.sections) stores.old stores.new }
    {
        self.copy_nodes(&mut stores.nodes);
        self.copy_entries(&mut stores.entries);
        self.copy_text(&mut stores.text);
    }

    // Puts the nodes into a store, in the place of what it held.
    fn copy_nodes(&self, nodes: &mut Store<'_, Node>)
        requires { length self.now.sections.nodes.now ≤ room nodes.old }
        ensures { CopiesNodes (laid self.now.sections) nodes.old nodes.new }
    {
        nodes.clear();
        for record in self.sections.nodes {
            let node = Node::try_from(Record::from(record)).unwrap();
            nodes.append(&[node]).unwrap();
        }
    }

    // Puts the entries into a store, in the place of what it held.
    fn copy_entries(&self, entries: &mut Store<'_, u32>)
        requires { length self.now.sections.entries.now ≤ room entries.old }
        ensures { Refilled entries.old (laid self.now.sections).entries entries.new }
    {
        entries.clear();
        for entry in self.sections.entries {
            entries.append(&[word(entry, 0)]).unwrap();
        }
    }

    // Puts the text into a store, in the place of what it held.
    fn copy_text(&self, text: &mut Store<'_, u8>)
        requires { length (laid self.now.sections).text ≤ room text.old }
        ensures { Refilled text.old (laid self.now.sections).text text.new }
    {
        text.clear();
        text.append(self.sections.text).unwrap();
    }
}
