// One call in place of several.
ghost use Rattle.std.specs.Prelude.{IsOkUnless};
ghost use Rattle.base.specs.declared.fault.Fault.TheVariants.{Overfull};
ghost use Rattle.deciding.specs.declared.plan.Plan.TheVariants.{OneCall};
ghost use Rattle.building.specs.Builds.{Builds};
ghost use Rattle.building.specs.Lists.{WritesArguments};

use super::appending::{append_list, push, run_between};
use base::Fault;
use deciding::collect_arguments;
use store::Stores;
use tree::{ListRun, Node};

// A call with the arguments of all calls of a chain.
pub(crate) fn build_one_call(stores: &mut Stores<'_>, callee: u32, chain: u32) -> Result<u32, Fault>
    ensures builds { Builds stores.old (OneCall callee chain) stores.new result }
    ensures fault { IsOkUnless result Overfull }
{
    let Some(chain) = collect_arguments(stores, chain) else {
        return Err(Fault::Overfull);
    };
    let arguments = write_arguments(stores, chain.collected_arguments())?;
    push(stores, Node::Call { callee, arguments })
}

// Writes the arguments of several calls, one behind the other.
fn write_arguments(stores: &mut Stores<'_>, calls: &[ListRun]) -> Result<ListRun, Fault>
    ensures writes { WritesArguments stores.old calls.now stores.new result }
    ensures fault { IsOkUnless result Overfull }
{
    let start = stores.entries.count();
    for &arguments in calls {
        append_list(stores, arguments)?;
    }
    run_between(start, stores.entries.count())
}
