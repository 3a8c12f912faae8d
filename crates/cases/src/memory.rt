ghost use Rattle.std.specs.Prelude.{◌≡◌, IfOk};

use file::{MAX_ENTRIES, MAX_NODES, MAX_TEXT};
use std::alloc::{AllocError, Global};
use store::{Counts, Store, Stores};
use tree::Node;

// The most that a file may hold.
const LIMITS: Counts = Counts {
    nodes: MAX_NODES,
    entries: MAX_ENTRIES,
    text: MAX_TEXT,
};

// Memory for the stores of one payoff, whose items are of three types.
#[derive(Drop)]
pub struct Memory {
    nodes: Vec<Node>,
    entries: Vec<u32>,
    text: Vec<u8>,
}

impl Memory {
    ghost use Rattle.store.specs.Stores.{counts_of, rooms_of};
    ghost use Rattle.cases.specs.Rooms.{rooms_in, within_limits, limits, none};

    // Memory with these rooms. No file holds more than the limits, so that no more than they is made.
    pub fn new(heap: Global, rooms: Counts) -> Result<Memory, AllocError>
        ensures { IfOk result (λ memory. rooms_in memory ≡ within_limits rooms) }
    {
        Ok(Memory {
            nodes: vec![in heap; Node::Null; rooms.nodes.min(LIMITS.nodes)]?,
            entries: vec![in heap; 0; rooms.entries.min(LIMITS.entries)]?,
            text: vec![in heap; 0; rooms.text.min(LIMITS.text)]?,
        })
    }

    // Memory for any file.
    pub fn for_any_file(heap: Global) -> Result<Memory, AllocError>
        ensures { IfOk result (λ memory. rooms_in memory ≡ limits) }
    {
        Memory::new(heap, LIMITS)
    }

    // Empty stores in this memory.
    pub fn stores(&mut self) -> Stores<'_>
        ensures empty { counts_of result ≡ none }
        ensures rooms { rooms_of result ≡ rooms_in self.old }
    {
        Stores {
            nodes: Store::new(self.nodes.as_mut_slice()),
            entries: Store::new(self.entries.as_mut_slice()),
            text: Store::new(self.text.as_mut_slice()),
        }
    }
}
