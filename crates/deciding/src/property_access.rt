// Reading a string or an array literal at an index.
ghost use Rattle.std.specs.Prelude.{length};
ghost use Rattle.store.specs.Stores.{held_of};
ghost use Rattle.rules.specs.Deciding.{decided};
ghost use Rattle.rules.specs.Property.{property_rule};
ghost use Rattle.std.specs.Option.{IfSome};
ghost use Rattle.deciding.specs.Plans.{DecidesOf, WritesNone, WritesOf, role_of};
ghost use Rattle.deciding.specs.Picking.{ReadAt, UnitAt, ElementAt};

use super::arguments::has_spread;
use super::integer_index::to_integer_index;
use super::place::Place;
use super::plan::{Decision, Plan};
use host::Host;
use store::Stores;
use text::unit_at;
use tree::{Node, Sort};

// Decides what `object[key]` becomes. What is taken as a reference is kept, so that `this` is.
pub fn property<H: Host>(stores: &Stores<'_>, node: u32, place: Place, host: &H) -> Decision
    ensures decides { DecidesOf (held_of stores.now) node
        (λ x. decided (H.answers host.now)
        (property_rule (length (held_of stores.now).nodes) (role_of place) x))
        result }
    ensures writes { WritesOf (held_of stores.now) node result }
{
    if let Place::Referred = place {
        return Decision::Kept;
    }
    let Some(member) = stores.node(node) else {
        return Decision::Kept;
    };
    let Node::ComputedMember { object, key } = member else {
        return Decision::Kept;
    };
    let Some(key) = stores.node(key) else {
        return Decision::Kept;
    };
    let Node::Number(bits) = key else {
        return Decision::Kept;
    };
    let Some(index) = to_integer_index(bits) else {
        return Decision::Kept;
    };
    let Some(plan) = try_fold_integer_index_access(stores, object, index) else {
        return Decision::Kept;
    };
    if host.may_have_side_effects(stores, object) {
        return Decision::Kept;
    }
    Decision::Rewritten(plan)
}

// What stands at the index of a literal.
fn try_fold_integer_index_access(stores: &Stores<'_>, object: u32, index: u32) -> Option<Plan>
    ensures reads { ReadAt (held_of stores.now) object index result }
    ensures writes { IfSome result (λ p. WritesNone p) }
{
    let Some(object) = stores.node(object) else {
        return None;
    };
    match object {
        Node::String(text) => {
            let Some(text) = stores.text(text) else {
                return None;
            };
            unit(text, index)
        }
        Node::Array(elements) => {
            let Some(elements) = stores.list(elements) else {
                return None;
            };
            element(stores, elements, index)
        }
        _ => None,
    }
}

// The one unit there, or `void 0` past the end.
fn unit(text: &[u8], index: u32) -> Option<Plan>
    ensures reads { UnitAt text.now index result }
    ensures writes { IfSome result (λ p. WritesNone p) }
{
    match unit_at(text, index as usize) {
        Ok(Some(unit)) => Some(Plan::Unit(unit)),
        Ok(None) => Some(Plan::VoidZero),
        Err(_) => None,
    }
}

// The element there, or `void 0` for a hole, where no spread stands before it.
fn element(stores: &Stores<'_>, elements: &[u32], index: u32) -> Option<Plan>
    ensures reads { ElementAt (held_of stores.now) elements.now index result }
    ensures writes { IfSome result (λ p. WritesNone p) }
{
    let Some(&element) = elements.get(index as usize) else {
        return None;
    };
    if has_spread(stores, &elements[..index as usize]) {
        return None;
    }
    let Some(node) = stores.node(element) else {
        return None;
    };
    match node.sort() {
        Sort::IsExpression => Some(Plan::Existing(element)),
        Sort::IsHole => Some(Plan::VoidZero),
        Sort::IsSpread | Sort::IsQuasi => None,
    }
}
