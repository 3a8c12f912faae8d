// The rule `method`: calls of `concat` on a literal, of `Math.pow` and of `Array.of`.
ghost use Rattle.std.specs.Prelude.{◌≡◌, ℕ, length};
ghost use Rattle.store.specs.Stores.{held_of};
ghost use Rattle.meaning.specs.Expression.{Expression, Elements};
ghost use Rattle.meaning.specs.Methods.{concat_name, pow_name, of_name};
ghost use Rattle.rules.specs.Places.{Settings, Role};
ghost use Rattle.rules.specs.Deciding.{decided};
ghost use Rattle.rules.specs.Method.{method_rule};
ghost use Rattle.deciding.specs.Plans.{DecidesOf, NamesMethod, WritesOn, WritesAt, WritesOf, role_of, settings_of};
ghost use Rattle.deciding.specs.Method.{known_name, FindsMethodOf, FoldsOf, ConcatsArray, JoinsString, Tells, is_name, is_global_name};

use super::arguments::{
    count_expressions, count_taken, has_spread, string_concat_can_interleave,
    string_concat_prefers_template,
};
use super::place::{Place, Support};
use super::plan::{Calls, Decision, Exponent, Plan};
use host::{Host, ValueType};
use store::Stores;
use tree::{ListRun, Node, TextRun};

// The methods that are known.
#[derive(Clone, Copy)]
enum KnownMethod {
    Concat,
    Pow,
    Of,
}

// The known method of this name.
fn known_method(name: &[u8]) -> Option<KnownMethod>
    ensures { result ≡ known_name name.now }
{
    match name {
        b"concat" => Some(KnownMethod::Concat),
        b"pow" => Some(KnownMethod::Pow),
        b"of" => Some(KnownMethod::Of),
        _ => None,
    }
}

// What takes the place of a call of a known method.
pub fn method<H: Host>(
    stores: &Stores<'_>,
    node: u32,
    place: Place,
    support: Support,
    host: &H,
) -> Decision
    ensures decides { DecidesOf (held_of stores.now) node
        (λ x. decided (H.answers host.now)
        (method_rule (settings_of support) (length (held_of stores.now).nodes) (role_of place) x))
        result }
    ensures writes { WritesOf (held_of stores.now) node result }
{
    let Some(Node::Call { callee, arguments }) = stores.node(node) else {
        return Decision::Kept;
    };
    let Some((name, object)) = find_method(stores, callee) else {
        return Decision::Kept;
    };
    match known_method(name) {
        Some(KnownMethod::Concat) => try_fold_concat(
            stores, callee, object, arguments, place, support, host,
        ),
        Some(KnownMethod::Pow) => try_fold_pow(stores, object, arguments, support, host),
        Some(KnownMethod::Of) => try_fold_array_of(stores, object, arguments, host),
        None => Decision::Kept,
    }
}

// The name and the object of the method that a callee names.
fn find_method<'a>(stores: &'a Stores<'_>, callee: u32) -> Option<(&'a [u8], u32)>
    ensures { FindsMethodOf (held_of stores.now) callee result }
{
    let (name, object) = match stores.node(callee)? {
        Node::StaticMember { object, name } => (name, object),
        Node::ComputedMember { object, key } => {
            let Some(Node::String(name)) = stores.node(key) else {
                return None;
            };
            (name, object)
        }
        _ => return None,
    };
    Some((stores.text(name)?, object))
}

// `"base".concat(..)`, and `[..].concat(..)`.
fn try_fold_concat<H: Host>(
    stores: &Stores<'_>,
    callee: u32,
    object: u32,
    arguments: ListRun,
    place: Place,
    support: Support,
    host: &H,
) -> Decision
    ensures folds { (f : Expression) → NamesMethod (held_of stores.now) callee f
        → FoldsOf (held_of stores.now) (H.answers host.now) (settings_of support) (role_of place)
        concat_name f object arguments result }
    ensures writes { WritesAt (held_of stores.now) object result }
{
    // Chains are left to the outermost call.
    if place == Place::ConcatObject {
        return Decision::Kept;
    }
    match stores.node(object) {
        Some(Node::Array(elements)) => try_fold_array_concat(
            stores, callee, object, elements, arguments,
        ),
        Some(Node::String(base)) if support.templates => try_fold_string_concat(
            stores, base, arguments, host,
        ),
        _ => Decision::Kept,
    }
}

// `[..].concat(..)`.
fn try_fold_array_concat(
    stores: &Stores<'_>,
    callee: u32,
    object: u32,
    elements: ListRun,
    arguments: ListRun,
) -> Decision
    ensures concats { ConcatsArray (held_of stores.now) callee object elements arguments result }
    ensures writes { (j : ℕ) (es : Elements) → WritesOn (Expression.array j es) result }
{
    let Some(entries) = stores.list(arguments) else {
        return Decision::Kept;
    };
    let taken = count_taken(stores, entries);
    if entries.is_empty() {
        Decision::Rewritten(Plan::Existing(object))
    } else if taken == 0 {
        Decision::Kept
    } else if taken == entries.len() {
        Decision::Rewritten(Plan::Merged {
            elements,
            taken: arguments,
        })
    } else {
        Decision::Rewritten(Plan::ConcatLeft {
            callee,
            elements,
            arguments,
            taken,
        })
    }
}

// `"base".concat(..)`.
fn try_fold_string_concat<H: Host>(
    stores: &Stores<'_>,
    base: TextRun,
    arguments: ListRun,
    host: &H,
) -> Decision
    ensures joins { JoinsString (H.answers host.now) (held_of stores.now) base arguments result }
    ensures writes { (o : Expression) → WritesOn o result }
{
    let Some(entries) = stores.list(arguments) else {
        return Decision::Kept;
    };
    if entries.is_empty()
        || has_spread(stores, entries)
        || !string_concat_prefers_template(entries.len(), count_expressions(stores, entries), 1)
        || !string_concat_can_interleave(stores, entries, host)
    {
        return Decision::Kept;
    }
    Decision::Rewritten(Plan::Joined(Calls::One { base, arguments }))
}

// `Math.pow(base, exponent)`.
fn try_fold_pow<H: Host>(
    stores: &Stores<'_>,
    object: u32,
    arguments: ListRun,
    support: Support,
    host: &H,
) -> Decision
    ensures folds { (r : Role) (f : Expression)
        → FoldsOf (held_of stores.now) (H.answers host.now) (settings_of support) r
        pow_name f object arguments result }
    ensures writes { (o : Expression) → WritesOn o result }
{
    let Some(arguments) = stores.list(arguments) else {
        return Decision::Kept;
    };
    let &[base, exponent] = arguments else {
        return Decision::Kept;
    };
    if !support.power
        || has_spread(stores, arguments)
        || !validate_global_reference(stores, object, b"Math", host)
    {
        return Decision::Kept;
    }
    let exponent = match host.value_type(stores, exponent) {
        ValueType::Number => Exponent::Number(exponent),
        _ => Exponent::Coerced(exponent),
    };
    Decision::Rewritten(Plan::Power { base, exponent })
}

// `Array.of(..)`.
fn try_fold_array_of<H: Host>(
    stores: &Stores<'_>,
    object: u32,
    arguments: ListRun,
    host: &H,
) -> Decision
    ensures folds { (s : Settings) (r : Role) (f : Expression)
        → FoldsOf (held_of stores.now) (H.answers host.now) s r of_name f object arguments result }
    ensures writes { WritesAt (held_of stores.now) object result }
{
    if !validate_global_reference(stores, object, b"Array", host) {
        return Decision::Kept;
    }
    Decision::Rewritten(Plan::ArrayOf(arguments))
}

// Whether the node is this name, and means what the language itself means by it.
fn validate_global_reference<H: Host>(stores: &Stores<'_>, node: u32, name: &[u8], host: &H) -> bool
    ensures { Tells (held_of stores.now) node name.now (is_global_name (H.answers host.now)) result }
{
    is_name(stores, node, name) && host.is_global_reference(stores, node)
}

// Whether the node is this name.
fn is_name(stores: &Stores<'_>, node: u32, name: &[u8]) -> bool
    ensures { Tells (held_of stores.now) node name.now is_name result }
{
    let Some(Node::Name(text)) = stores.node(node) else {
        return false;
    };
    let Some(text) = stores.text(text) else {
        return false;
    };
    text == name
}
