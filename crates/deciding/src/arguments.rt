// What is found out of the arguments of a call, each by its number.
ghost use Rattle.std.specs.Prelude.{◌≡◌, ◌+◌, ◌-◌, ◌*◌, ◌≤◌, nat_le};
ghost use Rattle.store.specs.Stores.{held_of};
ghost use Rattle.rules.specs.Interleaves.{settled};
ghost use Rattle.deciding.specs.Arguments.{is_spread, is_string, is_taken, stored_at, any_spread, expressions_among, leading_taken, GoesOn, InterleavesOf};

use host::{Host, ValueType};
use store::Stores;
use tree::Node;

// Whether the node is a spread.
pub(crate) fn is_spread(stores: &Stores<'_>, node: u32) -> bool
    ensures { result ≡ stored_at is_spread (held_of stores.now) node }
{
    matches!(stores.node(node), Some(Node::Spread(_)))
}

// Whether the node is a string.
fn is_string(stores: &Stores<'_>, node: u32) -> bool
    ensures { result ≡ stored_at is_string (held_of stores.now) node }
{
    matches!(stores.node(node), Some(Node::String(_)))
}

// Whether the node is a literal or an array literal, which `concat` on an array literal takes in.
fn is_taken(stores: &Stores<'_>, node: u32) -> bool
    ensures { result ≡ stored_at is_taken (held_of stores.now) node }
{
    matches!(
        stores.node(node),
        Some(Node::String(_) | Node::Number(_) | Node::Boolean(_) | Node::Null | Node::Array(_))
    )
}

// Whether any of the arguments is a spread.
pub(crate) fn has_spread(stores: &Stores<'_>, arguments: &[u32]) -> bool
    ensures { result ≡ any_spread (held_of stores.now) arguments.now }
{
    arguments
        .iter()
        .any(|&argument| is_spread(stores, argument))
}

// How many of the arguments are no strings.
pub(crate) fn count_expressions(stores: &Stores<'_>, arguments: &[u32]) -> usize
    ensures { result ≡ expressions_among (held_of stores.now) arguments.now }
{
    arguments
        .iter()
        .filter(|&&argument| !is_string(stores, argument))
        .count()
}

// How many arguments, from the first on, `concat` on an array literal takes in.
pub(crate) fn count_taken(stores: &Stores<'_>, arguments: &[u32]) -> usize
    ensures { result ≡ leading_taken (held_of stores.now) arguments.now }
{
    arguments
        .iter()
        .take_while(|&&argument| is_taken(stores, argument))
        .count()
}

// What a call of `concat`, the quotes of a string and the marks of a substitution take.
const CALL: u128 = ".concat()".len() as u128;

const QUOTES: u128 = "''".len() as u128;

const SUBSTITUTION: u128 = "${}".len() as u128;

// Whether a template of the arguments is no longer than that many calls: by the syntax that each adds, beside the base
// text and what the arguments are made of.
pub(crate) fn string_concat_prefers_template(
    argument_count: usize,
    expression_count: usize,
    call_count: usize,
) -> bool
    requires { expression_count ≤ argument_count }
    ensures { result
        ≡ nat_le (3 * expression_count)
        (9 * call_count + argument_count + 2 * (argument_count - expression_count)) }
{
    let string_count = argument_count - expression_count;
    let concat_overhead = call_count as u128 * CALL
        + argument_count as u128
        + string_count as u128 * QUOTES;
    let template_overhead = expression_count as u128 * SUBSTITUTION;
    template_overhead <= concat_overhead
}

// Whether a value of the type is no object.
#[tactic(auto, unfolding(rules::specs::Interleaves::settled))]
pub(crate) fn is_settled(value_type: ValueType) -> bool
    ensures { result ≡ settled value_type }
{
    !matches!(value_type, ValueType::Object | ValueType::Undetermined)
}

// Goes over arguments without a spread, before which one may coerce an object or none may, and behind which others may
// follow: nothing where they do not interleave, and else whether one so far may coerce an object. The type of the very
// last argument does not matter.
pub(crate) fn interleave<H: Host>(
    stores: &Stores<'_>,
    arguments: &[u32],
    mut may_coerce_object: bool,
    is_followed: bool,
    host: &H,
) -> Option<bool>
    ensures { GoesOn (H.answers host.now) (held_of stores.now) arguments.now
        may_coerce_object is_followed result }
{
    for (i, &argument) in arguments.iter().enumerate() {
        if may_coerce_object {
            if host.may_have_side_effects(stores, argument) {
                return None;
            }
        } else if is_followed || i + 1 < arguments.len() {
            may_coerce_object = !is_settled(host.value_type(stores, argument));
        }
    }
    Some(may_coerce_object)
}

// Whether the arguments, without a spread, may become the expressions of a template, which makes a text of each before
// the next one runs: none with effects follows one that may be an object.
pub(crate) fn string_concat_can_interleave<H: Host>(
    stores: &Stores<'_>,
    arguments: &[u32],
    host: &H,
) -> bool
    ensures { InterleavesOf (H.answers host.now) (held_of stores.now) arguments.now result }
{
    interleave(stores, arguments, false, false, host).is_some()
}
