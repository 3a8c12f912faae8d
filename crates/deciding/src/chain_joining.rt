// Chains of `concat`: a string's calls become a template or one call, an array's become one call.
ghost use Rattle.std.specs.Prelude.{◌≡◌, ◌+◌, ◌-◌, ◌*◌, ◌≤◌, ◌&&◌, length, nat_le};
ghost use Rattle.store.specs.Stores.{held_of};
ghost use Rattle.rules.specs.Deciding.{decided};
ghost use Rattle.rules.specs.Chain.{chain_rule};
ghost use Rattle.deciding.specs.Plans.{DecidesOf, WritesOf, role_of, settings_of};
ghost use Rattle.deciding.specs.Joining.{prefers, JoinsString};

use super::arguments::string_concat_prefers_template;
use super::chain_arguments::{
    ArgumentCounts, all_can_interleave, are_apart, count_arguments, each_can_interleave,
};
use super::chain_calls::collect_arguments;
use super::concat_chain::{MAX_CALLS, MAX_NODES, Root};
use super::place::{Place, Support};
use super::plan::{Calls, Decision, Plan};
use host::Host;
use store::Stores;
use tree::ListRun;

// What the calls of a chain become.
#[derive(Clone, Copy)]
enum Joined {
    Template,
    OneCall,
}

// Decides what the chain that ends with a call becomes. A chain is left to its outermost call, and has at least two. In
// stores of more than MAX_NODES nodes one may be too long, and is kept.
pub fn chain<H: Host>(
    stores: &Stores<'_>,
    node: u32,
    place: Place,
    support: Support,
    host: &H,
) -> Decision
    ensures decides { length (held_of stores.now).nodes ≤ MAX_NODES → DecidesOf (held_of stores.now) node
        (λ x. decided (H.answers host.now)
        (chain_rule (settings_of support) (length (held_of stores.now).nodes) (role_of place) x))
        result }
    ensures writes { WritesOf (held_of stores.now) node result }
{
    if let Place::ConcatObject = place {
        return Decision::Kept;
    }
    let Some(chain) = collect_arguments(stores, node) else {
        return Decision::Kept;
    };
    let calls = chain.collected_arguments();
    if calls.len() <= 1 {
        return Decision::Kept;
    }
    let one_call = Plan::OneCall {
        callee: chain.new_root_callee,
        chain: node,
    };
    match chain.root {
        Root::String => match join_string_calls(stores, calls, support, host) {
            Some(Joined::Template) => Decision::Rewritten(Plan::Joined(Calls::Chain(node))),
            Some(Joined::OneCall) => Decision::Rewritten(one_call),
            None => Decision::Kept,
        },
        Root::Array => {
            if are_apart(stores, calls, host) {
                Decision::Rewritten(one_call)
            } else {
                Decision::Kept
            }
        }
    }
}

// A template where it is short even against one call. Else one call, if all arguments together interleave; and if they
// do not, a template where it is short against all the calls.
fn join_string_calls<H: Host>(
    stores: &Stores<'_>,
    calls: &[ListRun],
    support: Support,
    host: &H,
) -> Option<Joined>
    requires { length calls.now ≤ MAX_CALLS }
    ensures { JoinsString (H.answers host.now) (held_of stores.now) (settings_of support) calls.now result }
{
    let Some(counts) = count_arguments(stores, calls) else {
        return None;
    };
    if prefers_template(support, counts, 1) {
        return each_can_interleave(stores, calls, host).then_some(Joined::Template);
    }
    if all_can_interleave(stores, calls, host) {
        return Some(Joined::OneCall);
    }
    if prefers_template(support, counts, calls.len()) {
        return each_can_interleave(stores, calls, host).then_some(Joined::Template);
    }
    None
}

fn prefers_template(support: Support, counts: ArgumentCounts, call_count: usize) -> bool
    requires { counts.expressions ≤ counts.arguments }
    ensures { result ≡ prefers (settings_of support) counts call_count }
{
    support.templates
        && string_concat_prefers_template(counts.arguments, counts.expressions, call_count)
}
