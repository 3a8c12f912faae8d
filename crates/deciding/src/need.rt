// How much space in the stores a plan needs.
ghost use Rattle.std.specs.Prelude.{◌≡◌, ◌≤◌, length};
ghost use Rattle.store.specs.Stores.{held_of};
ghost use Rattle.deciding.specs.Needs.{PutsIn, GivesOf, MergesTo, CountsCalls, CountsChain, BasedOn, JoinsTo, JoinsChain, NeedOf, StoresUnit};

use super::chain_calls::collect_arguments;
use super::concat_chain::MAX_CALLS;
use super::pieces::Pieces;
use super::plan::{Calls, Exponent, Plan};
use store::{Counts, Stores};
use tree::{ListRun, Node, TextRun};

impl Plan {
    // How many nodes, entries and bytes are new in what the plan is for.
    pub fn need(self, stores: &Stores<'_>) -> Counts
        ensures { NeedOf (held_of stores.now) self result }
    {
        match self {
            Plan::Existing(_) => without_text(0, 0),
            Plan::Unit(unit) => Counts {
                nodes: 1,
                entries: 0,
                text: stored_len(unit),
            },
            Plan::VoidZero => without_text(2, 0),
            Plan::Power { exponent, .. } => match exponent {
                Exponent::Number(_) => without_text(1, 0),
                Exponent::Coerced(_) => without_text(2, 0),
            },
            Plan::ArrayOf(_) => without_text(1, 0),
            Plan::Merged { elements, taken } => {
                without_text(1, merged_len(stores, elements, taken))
            }
            Plan::ConcatLeft {
                elements,
                arguments,
                ..
            } => without_text(3, merged_len(stores, elements, arguments)),
            Plan::OneCall { chain, .. } => without_text(1, chain_len(stores, chain)),
            Plan::Joined(calls) => match calls {
                Calls::One { base, arguments } => joined(stores, base, &[arguments]),
                Calls::Chain(call) => joined_chain(stores, call),
            },
        }
    }
}

// Where no text is written.
fn without_text(nodes: usize, entries: usize) -> Counts
    ensures { PutsIn nodes entries result }
{
    Counts {
        nodes,
        entries,
        text: 0,
    }
}

// How many bytes a text of this one unit has in stored form.
fn stored_len(unit: u16) -> usize
    ensures { StoresUnit unit result }
{
    match unit {
        0..=0x7F => 1,
        0x80..=0x7FF => 2,
        _ => 3,
    }
}

// How many elements there are in a list and behind it, where leading arguments give theirs.
fn merged_len(stores: &Stores<'_>, elements: ListRun, arguments: ListRun) -> usize
    ensures { MergesTo (held_of stores.now) elements arguments result }
{
    let mut len = elements.len as usize;
    let Some(arguments) = stores.list(arguments) else {
        return len;
    };
    for &argument in arguments {
        let Some(given) = given_len(stores, argument) else {
            return len;
        };
        len += given as usize;
    }
    len
}

// How many elements an argument gives, if `concat` on an array literal takes it in.
fn given_len(stores: &Stores<'_>, argument: u32) -> Option<u32>
    ensures { GivesOf (held_of stores.now) argument result }
{
    let Some(node) = stores.node(argument) else {
        return None;
    };
    match node {
        Node::Array(elements) => Some(elements.len),
        Node::String(_) | Node::Number(_) | Node::Boolean(_) | Node::Null => Some(1),
        _ => None,
    }
}

// How many arguments there are in all calls of the chain that ends with a call.
fn chain_len(stores: &Stores<'_>, call: u32) -> usize
    ensures { CountsChain (held_of stores.now) call result }
{
    match collect_arguments(stores, call) {
        Some(chain) => calls_len(chain.collected_arguments()),
        None => 0,
    }
}

fn calls_len(calls: &[ListRun]) -> usize
    requires { length calls.now ≤ MAX_CALLS }
    ensures { CountsCalls calls.now result }
{
    let mut len = 0;
    for call in calls {
        len += call.len as usize;
    }
    len
}

// How much a base text and the arguments of calls take, joined.
fn joined(stores: &Stores<'_>, base: TextRun, calls: &[ListRun]) -> Counts
    requires { length calls.now ≤ MAX_CALLS }
    ensures { JoinsTo (held_of stores.now) base calls.now result }
{
    let mut pieces = Pieces::empty().with_text(stores, base);
    for &call in calls {
        pieces = pieces.with_arguments(stores, call);
    }
    pieces.need()
}

// How much the base text and the arguments of the chain take that ends with a call.
fn joined_chain(stores: &Stores<'_>, call: u32) -> Counts
    ensures { JoinsChain (held_of stores.now) call result }
{
    let Some(chain) = collect_arguments(stores, call) else {
        return without_text(0, 0);
    };
    match base_of(stores, chain.new_root_callee) {
        Some(base) => joined(stores, base, chain.collected_arguments()),
        None => without_text(0, 0),
    }
}

// The text of the string that a static member is of.
fn base_of(stores: &Stores<'_>, callee: u32) -> Option<TextRun>
    ensures { BasedOn (held_of stores.now) callee result }
{
    let Some(callee) = stores.node(callee) else {
        return None;
    };
    let Node::StaticMember { object, .. } = callee else {
        return None;
    };
    let Some(object) = stores.node(object) else {
        return None;
    };
    let Node::String(text) = object else {
        return None;
    };
    Some(text)
}
