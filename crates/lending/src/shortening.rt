// Shortening a payoff in memory that the caller lends.
ghost use Rattle.std.specs.Prelude.{◌≤◌};
ghost use Rattle.store.specs.Stores.{held_of};
ghost use Rattle.lending.specs.Lending.{Shortens, ShortensIn, answers_by, RoomFor, Has, rooms_up_to, counts_up_to, lent};

use super::known::Known;
use super::record::{RECORD, write_records};
use super::sweeping::load_and_sweep;
use base::{Fault, append};
use deciding::Support;
use file::{MAX_ENTRIES, MAX_NODES, MAX_TEXT};
use model::{SweepRefused, Swept};
use store::{Counts, Store, Stores};
use tree::Node;

// Where no more is lent, a smaller piece of the stack is enough.
pub(crate) const FEW_NODES: usize = 256;

pub(crate) const FEW_ENTRIES: usize = 1024;

pub(crate) const LITTLE_TEXT: usize = 4096;

// What is left of a payoff: its root's number, how much the memory holds, and what the sweep answered.
#[derive(Clone, Copy, Debug, PartialEq, Eq)]
pub struct Shortened {
    pub root: u32,
    pub counts: Counts,
    pub swept: Result<Swept, SweepRefused>,
}

// Loads the payoff's file, sweeps once, and leaves in the memory what the stores hold then: the records of the nodes, 20
// bytes each, the list entries and the text. Or refuses the file, and leaves the memory as it was.
pub fn shorten(
    file: &[u8],
    known: Known<'_>,
    support: Support,
    records: &mut [u8],
    entries: &mut [u32],
    text: &mut [u8],
) -> Result<Shortened, Fault>
    ensures { Shortens file.now (answers_by known.entry) support (lent records.old entries.old text.old) result (lent records.new entries.new text.new) }
{
    let few_nodes = records.len() / RECORD <= FEW_NODES;
    if few_nodes && entries.len() <= FEW_ENTRIES && text.len() <= LITTLE_TEXT {
        shorten_on_stack::<FEW_NODES, FEW_ENTRIES, LITTLE_TEXT>(
            file, known, support, records, entries, text,
        )
    } else {
        shorten_on_stack::<MAX_NODES, MAX_ENTRIES, MAX_TEXT>(
            file, known, support, records, entries, text,
        )
    }
}

// Does so where there may be N nodes, E entries and T bytes at most. The stores stand on the stack meanwhile.
fn shorten_on_stack<const N: usize, const E: usize, const T: usize>(
    file: &[u8],
    known: Known<'_>,
    support: Support,
    records: &mut [u8],
    entries: &mut [u32],
    text: &mut [u8],
) -> Result<Shortened, Fault>
    requires { (N ≤ 4096) × (E ≤ 16384) × (T ≤ 65536) }
    ensures { ShortensIn (rooms_up_to (counts_up_to N E T) (lent records.old entries.old text.old)) file.now (answers_by known.entry) support (lent records.old entries.old text.old) result (lent records.new entries.new text.new) }
{
    let mut node_memory = [Node::Null; N];
    let mut entry_memory = [0; E];
    let mut text_memory = [0; T];
    let stores = Stores {
        nodes: Store::new(&mut node_memory[..(records.len() / RECORD).min(N)]),
        entries: Store::new(&mut entry_memory[..entries.len().min(E)]),
        text: Store::new(&mut text_memory[..text.len().min(T)]),
    };
    let (ended, swept) = load_and_sweep(file, known, support, stores)?;
    write_stores(&ended.stores, records, entries, text);
    Ok(Shortened {
        root: ended.root,
        counts: ended.counts,
        swept,
    })
}

// Writes what the stores hold to the front of the memory.
fn write_stores(stores: &Stores<'_>, records: &mut [u8], entries: &mut [u32], text: &mut [u8])
    requires { RoomFor (held_of stores.now) (lent records.old entries.old text.old) }
    ensures { Has (lent records.old entries.old text.old) (held_of stores.now) (lent records.new entries.new text.new) }
{
    write_records(stores.nodes.items(), records);
    append(entries, 0, stores.entries.items()).unwrap();
    append(text, 0, stores.text.items()).unwrap();
}
