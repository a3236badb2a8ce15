//! What expressions do to a fact.

ghost use Rattle.std.specs.Prelude.{◌≡◌, map};
ghost use Rattle.evo_flow.specs.Act.{act};
ghost use Rattle.evo_flow.specs.Flows as spec;
ghost use Rattle.evo_flow.specs.Trees.{args_way, ended, expr_way, member_way, members_way, operands_way, self_use, used};
ghost use Rattle.evo_flow.specs.Trees.{place_at as first_place};
ghost use Rattle.evo_flow.specs.TreeFlows.{operand_flow};

use crate::flow::{Fact, Flow, on_use};
use crate::ways::{either, skip, step, stopping, then};
use evo_base::{Key, Place};
use evo_resolved::{Builtin, RExpr, RMember, ROperand, RUse, Variable};
use evo_tree::InfixOperator;
use sqlite_items::Items;

/// What a use of `self` does.
pub(crate) fn walk_use(fact: Fact, property: &Key, place: Place) -> Flow
    ensures { result ≡ spec.flow (act fact property.now) (self_use place) }
{
    step(on_use(fact, property, place))
}

fn place_at(steps: &[RUse], place: Place) -> Place
    ensures { result ≡ first_place steps.now place }
{
    match steps {
        [first, ..] => first.place,
        [] => place,
    }
}

fn walk_used(fact: Fact, property: &Key, variable: Variable, place: Place) -> Flow
    ensures { result ≡ spec.flow (act fact property.now) (used variable place) }
{
    match variable {
        Variable::SelfValue => walk_use(fact, property, place),
        Variable::Local(_) => skip(),
    }
}

fn walk_ended(fact: Fact, property: &Key, builtin: Builtin) -> Flow
    ensures { result ≡ spec.flow (act fact property.now) (ended builtin) }
{
    match builtin {
        Builtin::Fatal => stopping(),
        Builtin::Print => skip(),
        Builtin::Precondition => skip(),
    }
}

fn walk_operand(operator: InfixOperator, flow: &Flow) -> Flow
    ensures { result ≡ operand_flow operator flow.now }
{
    match operator {
        InfixOperator::And => either(flow, &skip()),
        InfixOperator::Or => either(flow, &skip()),
        _ => *flow,
    }
}

/// What arguments do, in turn.
#[cycle(expressions)]
pub(crate) fn walk_args(fact: Fact, property: &Key, args: &Items<RExpr>) -> Flow
    ensures { result ≡ spec.flow (act fact property.now) (args_way args.now) }
{
    let mut flow = skip();
    for arg in args.as_slice() {
        flow = then(&flow, &walk_expr(fact, property, arg));
    }
    flow
}

#[cycle(expressions)]
fn walk_operands(fact: Fact, property: &Key, operands: &Items<ROperand>) -> Flow
    ensures { result ≡ spec.flow (act fact property.now) (operands_way operands.now) }
{
    let mut flow = skip();
    for operand in operands.as_slice() {
        let one = walk_expr(fact, property, &operand.1);
        flow = then(&flow, &walk_operand(operand.0, &one));
    }
    flow
}

#[cycle(expressions)]
fn walk_member(fact: Fact, property: &Key, member: &RMember) -> Flow
    ensures { result ≡ spec.flow (act fact property.now) (member_way member.now) }
{
    match member {
        RMember::Property(_) => skip(),
        RMember::Called(applied) => walk_args(fact, property, &applied.1),
        RMember::Mutated(_, applied) => walk_args(fact, property, &applied.1),
    }
}

#[cycle(expressions)]
fn walk_members(fact: Fact, property: &Key, members: &Items<RMember>) -> Flow
    ensures { result ≡ spec.flow (act fact property.now) (members_way members.now) }
{
    let mut flow = skip();
    for member in members.as_slice() {
        flow = then(&flow, &walk_member(fact, property, member));
    }
    flow
}

/// What an expression does to a fact.
#[cycle(expressions)]
pub(crate) fn walk_expr(fact: Fact, property: &Key, expr: &RExpr) -> Flow
    ensures { result ≡ spec.flow (act fact property.now) (expr_way expr.now) }
{
    match expr {
        RExpr::Literal(_) => skip(),
        RExpr::Local(_, _, _) => skip(),
        RExpr::SelfValue(place, _) => walk_use(fact, property, *place),
        RExpr::Upcast(object, _) => walk_expr(fact, property, object.get()),
        RExpr::Prefix(_, operand) => walk_expr(fact, property, operand.get()),
        RExpr::Chain(first, operands, _) => then(
            &walk_expr(fact, property, first.get()),
            &walk_operands(fact, property, operands),
        ),
        RExpr::Members(value, members) => then(
            &walk_expr(fact, property, value.get()),
            &walk_members(fact, property, members),
        ),
        RExpr::Mutate(variable, steps, applied) => then(
            &walk_args(fact, property, &applied.1),
            &walk_used(
                fact,
                property,
                *variable,
                place_at(steps.as_slice(), applied.0.place),
            ),
        ),
        RExpr::Case(applied) => walk_args(fact, property, &applied.1),
        RExpr::New(applied) => walk_args(fact, property, &applied.1),
        RExpr::Call(applied) => walk_args(fact, property, &applied.1),
        RExpr::Super(applied) => then(
            &walk_use(fact, property, applied.0.place),
            &walk_args(fact, property, &applied.1),
        ),
        RExpr::Builtin(_, builtin, args) => then(
            &walk_args(fact, property, args),
            &walk_ended(fact, property, *builtin),
        ),
    }
}
