// Templates, and strings, of a base text and of arguments.
ghost use Rattle.building.specs.Builds.{Builds, LacksRoomOrText};
ghost use Rattle.building.specs.Joined.{BaseOf, JoinsCalls};
ghost use Rattle.deciding.specs.declared.plan.Plan.TheVariants.{Joined};
ghost use Rattle.store.specs.Stores.{held_of};

use super::template_builder::TemplateBuilder;
use base::Fault;
use deciding::{Calls, collect_arguments};
use store::Stores;
use tree::{ListRun, Node, TextRun};

// Builds the template, or the string, of a base text and of the arguments of the calls, and answers its number.
pub(crate) fn build_joined(stores: &mut Stores<'_>, calls: Calls) -> Result<u32, Fault>
    ensures builds { Builds stores.old (Joined calls) stores.new result }
    ensures fault { LacksRoomOrText result }
{
    match calls {
        Calls::One { base, arguments } => join_calls(stores, base, &[arguments]),
        Calls::Chain(call) => {
            let Some(chain) = collect_arguments(stores, call) else {
                return Err(Fault::Malformed);
            };
            let Some(base) = text_of_object(stores, chain.new_root_callee) else {
                return Err(Fault::Malformed);
            };
            join_calls(stores, base, chain.collected_arguments())
        }
    }
}

// Joins the arguments of each call to the base text, in order.
fn join_calls(stores: &mut Stores<'_>, base: TextRun, calls: &[ListRun]) -> Result<u32, Fault>
    ensures joins { JoinsCalls stores.old base calls.now stores.new result }
    ensures fault { LacksRoomOrText result }
{
    let mut builder = TemplateBuilder::begin(stores, base)?;
    for arguments in calls {
        builder.add_arguments(stores, *arguments)?;
    }
    builder.finish(stores)
}

// The text of the string that a static member is of.
fn text_of_object(stores: &Stores<'_>, member: u32) -> Option<TextRun>
    ensures { BaseOf (held_of stores.now) member result }
{
    let Some(record) = stores.node(member) else {
        return None;
    };
    let Node::StaticMember { object, .. } = record else {
        return None;
    };
    let Some(record) = stores.node(object) else {
        return None;
    };
    let Node::String(text) = record else {
        return None;
    };
    Some(text)
}
