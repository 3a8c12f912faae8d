// How the calls of a chain are found.
ghost use Rattle.std.specs.Prelude.{◌≡◌, bytes_eq};
ghost use Rattle.store.specs.Stores.{held_of};
ghost use Rattle.meaning.specs.Methods.{concat_name};
ghost use Rattle.deciding.specs.ConcatCalls.{RootAt, ConcatAt, Collects};

use super::concat_chain::{ConcatChain, MAX_CALLS, Root};
use store::Stores;
use tree::{ListRun, Node};

// A call of a static member `concat`.
#[derive(Clone, Copy)]
struct ConcatCall {
    callee: u32,
    object: u32,
    arguments: ListRun,
}

// The chain that ends with the call, if there is one. It stands in its callers, so that the table is not handed on, and its
// place not cleared where there is no chain.
#[inline(always)]
pub fn collect_arguments(stores: &Stores<'_>, node: u32) -> Option<ConcatChain>
    ensures { Collects (held_of stores.now) node result }
{
    // Most nodes end no chain, and no table is set out for them.
    let Some(_) = concat_call(stores, node) else {
        return None;
    };
    let mut table = [ListRun::new(0, 0); MAX_CALLS];
    let mut current = node;
    for i in 0..MAX_CALLS {
        let Some(call) = concat_call(stores, current) else {
            return None;
        };
        let start = MAX_CALLS - 1 - i;
        table[start] = call.arguments;
        if let Some(root) = root_of(stores, call.object) {
            return Some(ConcatChain {
                root,
                new_root_callee: call.callee,
                table,
                start,
            });
        }
        current = call.object;
    }
    None
}

#[inline(always)]
fn concat_call(stores: &Stores<'_>, node: u32) -> Option<ConcatCall>
    ensures { ConcatAt (held_of stores.now) node result }
{
    let Some(call) = stores.node(node) else {
        return None;
    };
    let Node::Call { callee, arguments } = call else {
        return None;
    };
    let Some(member) = stores.node(callee) else {
        return None;
    };
    let Node::StaticMember { object, name } = member else {
        return None;
    };
    let Some(name) = stores.text(name) else {
        return None;
    };
    if !is_concat(name) {
        return None;
    }
    Some(ConcatCall {
        callee,
        object,
        arguments,
    })
}

// Whether the name in its stored form, which is its units, is `concat`.
#[tactic(auto, unfolding(meaning::specs::Methods::concat_name))]
fn is_concat(name: &[u8]) -> bool
    ensures { result ≡ bytes_eq name.now concat_name }
{
    name == b"concat".as_slice()
}

// A string or an array literal, with which a chain begins.
fn root_of(stores: &Stores<'_>, node: u32) -> Option<Root>
    ensures { RootAt (held_of stores.now) node result }
{
    let Some(object) = stores.node(node) else {
        return None;
    };
    match object {
        Node::String(_) => Some(Root::String),
        Node::Array(_) => Some(Root::Array),
        _ => None,
    }
}
