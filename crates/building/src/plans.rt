// What is built, by the kind of the plan.
ghost use Rattle.std.specs.Prelude.{IsOkUnless};
ghost use Rattle.base.specs.declared.fault.Fault.TheVariants.{Overfull};
ghost use Rattle.deciding.specs.declared.plan.Plan.TheVariants.{Unit as UnitPlan, VoidZero, Power};
ghost use Rattle.building.specs.Builds.{Builds, LacksRoomOrText};

use super::appending::{push, run_between};
use super::arrays::{build_concat_left, build_merged};
use super::calls::build_one_call;
use super::joining::build_joined;
use base::Fault;
use deciding::{Exponent, Plan};
use store::Stores;
use text::Encoded;
use tree::{BinaryOperator, Node, UnaryOperator};

// Builds what a plan is for, and answers its number.
pub fn build(stores: &mut Stores<'_>, plan: Plan) -> Result<u32, Fault>
    ensures builds { Builds stores.old plan stores.new result }
    ensures fault { LacksRoomOrText result }
{
    match plan {
        Plan::Existing(node) => Ok(node),
        Plan::Unit(unit) => build_unit(stores, unit),
        Plan::VoidZero => build_void_zero(stores),
        Plan::Power { base, exponent } => build_power(stores, base, exponent),
        Plan::ArrayOf(arguments) => push(stores, Node::Array(arguments)),
        Plan::Merged { elements, taken } => build_merged(stores, elements, taken),
        Plan::ConcatLeft {
            callee,
            elements,
            arguments,
            taken,
        } => build_concat_left(stores, callee, elements, arguments, taken),
        Plan::OneCall { callee, chain } => build_one_call(stores, callee, chain),
        Plan::Joined(calls) => build_joined(stores, calls),
    }
}

// A string of one unit.
fn build_unit(stores: &mut Stores<'_>, unit: u16) -> Result<u32, Fault>
    ensures builds { Builds stores.old (UnitPlan unit) stores.new result }
    ensures fault { IsOkUnless result Overfull }
{
    let bytes = Encoded::new(u32::from(unit)).ok_or(Fault::Overfull)?;
    let start = stores.text.count();
    stores.text.append(bytes.as_bytes())?;
    let text = run_between(start, stores.text.count())?;
    push(stores, Node::String(text))
}

// `void 0`.
fn build_void_zero(stores: &mut Stores<'_>) -> Result<u32, Fault>
    ensures builds { Builds stores.old VoidZero stores.new result }
    ensures fault { IsOkUnless result Overfull }
{
    let operand = push(stores, Node::Number(0))?;
    push(
        stores,
        Node::Unary {
            operator: UnaryOperator::Void,
            operand,
        },
    )
}

// `base ** exponent`.
fn build_power(stores: &mut Stores<'_>, base: u32, exponent: Exponent) -> Result<u32, Fault>
    ensures builds { Builds stores.old (Power base exponent) stores.new result }
    ensures fault { IsOkUnless result Overfull }
{
    let right = match exponent {
        Exponent::Number(number) => number,
        Exponent::Coerced(operand) => push(
            stores,
            Node::Unary {
                operator: UnaryOperator::Plus,
                operand,
            },
        )?,
    };
    push(
        stores,
        Node::Binary {
            operator: BinaryOperator::Exponentiation,
            left: base,
            right,
        },
    )
}
