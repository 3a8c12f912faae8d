// Checking a file alone.
ghost use Rattle.std.specs.Prelude.{◌≤◌};
ghost use Rattle.lending.specs.Lending.{Checks, ChecksIn, counts_up_to};

use super::shortening::{FEW_ENTRIES, FEW_NODES, LITTLE_TEXT};
use base::Fault;
use file::{MAX_ENTRIES, MAX_NODES, MAX_TEXT, load};
use store::{Counts, Store, Stores};
use tree::Node;

// A file of so many bytes holds no more than a small piece of the stack has room for.
const LITTLE_FILE: usize = 4096;

// What a lawful file has: its root's number, and how much it holds.
#[derive(Clone, Copy, Debug, PartialEq, Eq)]
pub struct Checked {
    pub root: u32,
    pub counts: Counts,
}

// Asks everything of a payoff's file that is asked before it is loaded, with as much room as a payoff may need.
pub fn check(file: &[u8]) -> Result<Checked, Fault>
    ensures { Checks file.now result }
{
    if file.len() <= LITTLE_FILE {
        check_on_stack::<FEW_NODES, FEW_ENTRIES, LITTLE_TEXT>(file)
    } else {
        check_on_stack::<MAX_NODES, MAX_ENTRIES, MAX_TEXT>(file)
    }
}

// Does so with room for N nodes, E entries and T bytes.
fn check_on_stack<const N: usize, const E: usize, const T: usize>(
    file: &[u8],
) -> Result<Checked, Fault>
    requires { (N ≤ 4096) × (E ≤ 16384) × (T ≤ 65536) }
    ensures { ChecksIn (counts_up_to N E T) file.now result }
{
    let mut nodes = [Node::Null; N];
    let mut entries = [0; E];
    let mut text = [0; T];
    let stores = Stores {
        nodes: Store::new(&mut nodes),
        entries: Store::new(&mut entries),
        text: Store::new(&mut text),
    };
    match load(file, stores) {
        Ok(loaded) => Ok(Checked {
            root: loaded.root(),
            counts: loaded.stores().counts(),
        }),
        Err(refused) => Err(refused.fault),
    }
}
