// Arrays whose elements are written anew.
ghost use Rattle.std.specs.Prelude.{◌≡◌, ◌≤◌, length, IsOkUnless};
ghost use Rattle.base.specs.declared.fault.Fault.TheVariants.{Overfull};
ghost use Rattle.store.specs.Held.{held};
ghost use Rattle.deciding.specs.declared.plan.Plan.TheVariants.{Merged, ConcatLeft};
ghost use Rattle.building.specs.Builds.{Builds};
ghost use Rattle.building.specs.Lists.{is_literal, TakesInArgument, TakesInAll, WritesElements};

use super::appending::{append_list, behind, push, run_between};
use base::Fault;
use store::Stores;
use tree::{ListRun, Node};

// An array with the elements of another, and behind them what leading arguments give.
pub(crate) fn build_merged(
    stores: &mut Stores<'_>,
    elements: ListRun,
    arguments: ListRun,
) -> Result<u32, Fault>
    ensures builds { Builds stores.old (Merged elements arguments) stores.new result }
    ensures fault { IsOkUnless result Overfull }
{
    let list = write_elements(stores, elements, arguments)?;
    push(stores, Node::Array(list))
}

// A call of `concat` on such an array, with the arguments that are left.
pub(crate) fn build_concat_left(
    stores: &mut Stores<'_>,
    callee: u32,
    elements: ListRun,
    arguments: ListRun,
    taken: usize,
) -> Result<u32, Fault>
    ensures builds { Builds stores.old (ConcatLeft callee elements arguments taken) stores.new result }
    ensures fault { IsOkUnless result Overfull }
{
    let Some(left) = behind(arguments, taken) else {
        return Err(Fault::Overfull);
    };
    let Some(member) = stores.node(callee) else {
        return Err(Fault::Overfull);
    };
    let list = write_elements(stores, elements, arguments)?;
    let object = push(stores, Node::Array(list))?;
    let callee = push(stores, member.with_link(0, object))?;
    push(
        stores,
        Node::Call {
            callee,
            arguments: left,
        },
    )
}

// Writes the elements of an array, and behind them what leading arguments give.
fn write_elements(
    stores: &mut Stores<'_>,
    elements: ListRun,
    arguments: ListRun,
) -> Result<ListRun, Fault>
    ensures writes { WritesElements stores.old elements arguments stores.new result }
    ensures fault { IsOkUnless result Overfull }
{
    let start = stores.entries.count();
    append_list(stores, elements)?;
    append_taken(stores, arguments)?;
    run_between(start, stores.entries.count())
}

// Appends what `concat` on an array literal takes in of its arguments, up to the first that it does not take in.
fn append_taken(stores: &mut Stores<'_>, arguments: ListRun) -> Result<(), Fault>
    ensures takes_in { TakesInAll stores.old arguments stores.new result }
    ensures grows { length (held stores.old.entries) ≤ length (held stores.new.entries) }
    ensures fault { IsOkUnless result Overfull }
{
    for i in 0..arguments.len {
        let argument = stores
            .entries
            .get(arguments.start as usize + i as usize)
            .ok_or(Fault::Overfull)?;
        if !take_in(stores, argument)? {
            return Ok(());
        }
    }
    Ok(())
}

// Appends what `concat` on an array literal takes in of an argument: the elements of an array literal, or another
// literal itself. Answers whether it is one of these.
fn take_in(stores: &mut Stores<'_>, argument: u32) -> Result<bool, Fault>
    ensures takes_in { TakesInArgument stores.old argument stores.new result }
    ensures grows { length (held stores.old.entries) ≤ length (held stores.new.entries) }
    ensures fault { IsOkUnless result Overfull }
{
    match stores.node(argument) {
        Some(Node::Array(elements)) => append_list(stores, elements)?,
        Some(node) if is_literal(node) => stores.entries.append(&[argument])?,
        _ => return Ok(false),
    }
    Ok(true)
}

// Whether the node is a literal other than an array literal.
fn is_literal(node: Node) -> bool
    ensures { result ≡ is_literal node }
{
    matches!(
        node,
        Node::String(_) | Node::Number(_) | Node::Boolean(_) | Node::Null
    )
}
