// What is found out of the arguments of a chain's calls, the innermost call first.
ghost use Rattle.std.specs.Prelude.{◌≡◌, ◌≤◌, length};
ghost use Rattle.std.specs.Option.{IfSome};
ghost use Rattle.store.specs.Stores.{held_of};
ghost use Rattle.deciding.specs.Arguments.{stored_at};
ghost use Rattle.deciding.specs.ChainArguments.{is_array_record, CountsOf, LastArgumentOf, EachInterleavesOf, AllInterleaveOf, EffectsOf, StillOf, ReadLaterOf, ApartOf};

use super::arguments::{
    count_expressions, has_spread, interleave, is_settled, string_concat_can_interleave,
};
use super::concat_chain::MAX_CALLS;
use host::Host;
use store::Stores;
use tree::{ListRun, Node};

// How many arguments there are, and how many of them are no strings.
#[derive(Clone, Copy)]
pub(crate) struct ArgumentCounts {
    pub arguments: usize,
    pub expressions: usize,
}

// Counts the arguments of all calls, where none of them is a spread.
pub(crate) fn count_arguments(stores: &Stores<'_>, calls: &[ListRun]) -> Option<ArgumentCounts>
    requires { length calls.now ≤ MAX_CALLS }
    ensures counts { CountsOf (held_of stores.now) calls.now result }
    ensures within { IfSome result (λ counts. counts.expressions ≤ counts.arguments) }
{
    let mut arguments_so_far = 0;
    let mut expressions_so_far = 0;
    for &call in calls {
        let Some(arguments) = stores.list(call) else {
            return None;
        };
        if has_spread(stores, arguments) {
            return None;
        }
        arguments_so_far += call.len as usize;
        expressions_so_far += count_expressions(stores, arguments);
    }
    Some(ArgumentCounts {
        arguments: arguments_so_far,
        expressions: expressions_so_far,
    })
}

// How many calls there are up to the last one with arguments.
fn count_calls_to_last_argument(calls: &[ListRun]) -> usize
    ensures last { LastArgumentOf calls.now result }
    ensures within { result ≤ length calls.now }
{
    let mut count = 0;
    for (i, call) in calls.iter().enumerate() {
        if call.len > 0 {
            count = i + 1;
        }
    }
    count
}

// Whether each call's arguments, no spread among them, may become the expressions of a template.
pub(crate) fn each_can_interleave<H: Host>(stores: &Stores<'_>, calls: &[ListRun], host: &H) -> bool
    ensures { EachInterleavesOf (H.answers host.now) (held_of stores.now) calls.now result }
{
    for &call in calls {
        let Some(arguments) = stores.list(call) else {
            return false;
        };
        if !string_concat_can_interleave(stores, arguments, host) {
            return false;
        }
    }
    true
}

// Whether the arguments of all calls together may.
pub(crate) fn all_can_interleave<H: Host>(stores: &Stores<'_>, calls: &[ListRun], host: &H) -> bool
    ensures { AllInterleaveOf (H.answers host.now) (held_of stores.now) calls.now result }
{
    let with_arguments = count_calls_to_last_argument(calls);
    let mut may_coerce_object = false;
    for (i, &call) in calls.iter().enumerate() {
        let Some(arguments) = stores.list(call) else {
            return false;
        };
        let is_followed = i + 1 < with_arguments;
        let Some(may_coerce) = interleave(stores, arguments, may_coerce_object, is_followed, host)
        else {
            return false;
        };
        may_coerce_object = may_coerce;
    }
    true
}

// Whether no argument with effects follows, in a later call, one that `concat` on an array reads only when it is
// called. (A condition that oxc_minifier lacks.)
pub(crate) fn are_apart<H: Host>(stores: &Stores<'_>, calls: &[ListRun], host: &H) -> bool
    ensures { ApartOf (H.answers host.now) (held_of stores.now) calls.now result }
{
    for later in 1..count_calls_to_last_argument(calls) {
        let Some(arguments) = stores.list(calls[later - 1]) else {
            return false;
        };
        if !can_be_read_later(stores, arguments, host) {
            return have_no_effects(stores, &calls[later..], host);
        }
    }
    true
}

// Whether each of a call's arguments is an array literal, or no object.
fn can_be_read_later<H: Host>(stores: &Stores<'_>, arguments: &[u32], host: &H) -> bool
    ensures { ReadLaterOf (H.answers host.now) (held_of stores.now) arguments.now result }
{
    if has_spread(stores, arguments) {
        return false;
    }
    for &argument in arguments {
        if !is_array(stores, argument) && !is_settled(host.value_type(stores, argument)) {
            return false;
        }
    }
    true
}

fn is_array(stores: &Stores<'_>, node: u32) -> bool
    ensures { result ≡ stored_at is_array_record (held_of stores.now) node }
{
    matches!(stores.node(node), Some(Node::Array(_)))
}

// Whether no argument of any of the calls has effects.
fn have_no_effects<H: Host>(stores: &Stores<'_>, calls: &[ListRun], host: &H) -> bool
    ensures { StillOf (H.answers host.now) (held_of stores.now) calls.now result }
{
    for &call in calls {
        let Some(arguments) = stores.list(call) else {
            return false;
        };
        if any_has_effects(stores, arguments, host) {
            return false;
        }
    }
    true
}

fn any_has_effects<H: Host>(stores: &Stores<'_>, arguments: &[u32], host: &H) -> bool
    ensures { EffectsOf (H.answers host.now) (held_of stores.now) arguments.now result }
{
    for &argument in arguments {
        if host.may_have_side_effects(stores, argument) {
            return true;
        }
    }
    false
}
