// Appending a node or a list, and pieces of the stores.
ghost use Rattle.std.specs.Prelude.{◌≤◌, length, IsOkUnless};
ghost use Rattle.base.specs.declared.fault.Fault.TheVariants.{Overfull};
ghost use Rattle.store.specs.Held.{held};
ghost use Rattle.building.specs.Growing.{Pushes, RunBetween};
ghost use Rattle.building.specs.Lists.{AppendsList, LiesBehind};

use base::Fault;
use store::Stores;
use tree::{ListRun, Node, Run};

// Appends a node, and answers its number.
pub(crate) fn push(stores: &mut Stores<'_>, node: Node) -> Result<u32, Fault>
    ensures pushes { Pushes stores.old node stores.new result }
    ensures fault { IsOkUnless result Overfull }
{
    let Ok(number) = u32::try_from(stores.nodes.count()) else {
        return Err(Fault::Overfull);
    };
    stores.nodes.append(&[node])?;
    Ok(number)
}

// Appends the entries of a list once more.
pub(crate) fn append_list(stores: &mut Stores<'_>, list: ListRun) -> Result<(), Fault>
    ensures lists { AppendsList stores.old list stores.new result }
    ensures grows { length (held stores.old.entries) ≤ length (held stores.new.entries) }
    ensures fault { IsOkUnless result Overfull }
{
    stores
        .entries
        .append_within(list.start as usize, list.len as usize)
}

// A piece of a store, by where it begins and where it ends.
pub(crate) fn run_between<T>(start: usize, end: usize) -> Result<Run<T>, Fault>
    ensures run { RunBetween start end result }
    ensures fault { IsOkUnless result Overfull }
{
    if start > end {
        return Err(Fault::Overfull);
    }
    match (u32::try_from(start), u32::try_from(end - start)) {
        (Ok(start), Ok(len)) => Ok(Run::new(start, len)),
        _ => Err(Fault::Overfull),
    }
}

// The piece of a list behind its first entries.
pub(crate) fn behind(list: ListRun, count: usize) -> Option<ListRun>
    ensures { LiesBehind list count result }
{
    let count = u32::try_from(count).ok()?;
    let start = list.start.checked_add(count)?;
    let len = list.len.checked_sub(count)?;
    Some(ListRun::new(start, len))
}
