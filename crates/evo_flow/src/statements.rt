//! What statements do to a fact.

ghost use Rattle.std.specs.Prelude.{◌≡◌, map};
ghost use Rattle.evo_resolved.specs.declared.statement.RClause.{out-RClause};
ghost use Rattle.evo_flow.specs.Act.{act};
ghost use Rattle.evo_flow.specs.Flows as spec;
ghost use Rattle.evo_flow.specs.Way.{any_of, in_turn};
ghost use Rattle.evo_flow.specs.Trees.{assign_way, block_way, branches_way, optional_way, return_way, root_way, self_set, set_way, stmt_way, store_way};
ghost use Rattle.evo_flow.specs.TreeFlows.{branch_flow, switch_flow, while_flow};

use crate::expressions::{walk_args, walk_expr, walk_use};
use crate::flow::{Fact, Flow, on_assign, on_delegate, on_leaving, on_store, on_super};
use crate::ways::{
    breaking, continuing, either, leaving_switch, looping, skip, step, stopping, then,
};
use evo_base::{Key, Place};
use evo_resolved::{RBlock, RBranch, RClause, RExpr, RPlace, RRoot, RStmt, RUse, Variable};
use evo_tree::AssignmentOperator;
use sqlite_items::Items;

fn walk_optional(fact: Fact, property: &Key, expr: &Option<RExpr>) -> Flow
    ensures { result ≡ spec.flow (act fact property.now) (optional_way expr.now) }
{
    match expr {
        Some(expr) => walk_expr(fact, property, expr),
        None => skip(),
    }
}

fn walk_branch(
    fact: Fact,
    property: &Key,
    condition: &Option<RExpr>,
    block: &Flow,
    rest: &Flow,
) -> Flow
    ensures { result ≡ branch_flow (act fact property.now) condition.now block.now rest.now }
{
    match condition {
        Some(condition) => then(&walk_expr(fact, property, condition), &either(block, rest)),
        None => *block,
    }
}

fn walk_turn(fact: Fact, property: &Key, condition: &Option<RExpr>, block: &Flow) -> Flow
    ensures { result ≡ while_flow (act fact property.now) condition.now block.now }
{
    match condition {
        Some(condition) => looping(&then(
            &walk_expr(fact, property, condition),
            &either(block, &breaking()),
        )),
        None => looping(block),
    }
}

fn walk_root(fact: Fact, property: &Key, root: &RRoot) -> Flow
    ensures { result ≡ spec.flow (act fact property.now) (root_way root.now) }
{
    match root {
        RRoot::Variable(_) => skip(),
        RRoot::Object(object) => walk_expr(fact, property, object),
    }
}

fn walk_whole(fact: Fact, property: &Key, steps: &[RUse], place: Place) -> Flow
    ensures { result ≡ spec.flow (act fact property.now) (self_set AssignmentOperator.Assign steps.now place) }
{
    match steps {
        [] => step(on_assign(fact, property, place)),
        [_, ..] => walk_use(fact, property, place),
    }
}

fn walk_self_set(
    fact: Fact,
    property: &Key,
    operator: AssignmentOperator,
    steps: &[RUse],
    place: Place,
) -> Flow
    ensures { result ≡ spec.flow (act fact property.now) (self_set operator steps.now place) }
{
    match operator {
        AssignmentOperator::Assign => walk_whole(fact, property, steps, place),
        _ => walk_use(fact, property, place),
    }
}

fn walk_set(fact: Fact, property: &Key, target: &RPlace, operator: AssignmentOperator) -> Flow
    ensures { result ≡ spec.flow (act fact property.now) (set_way target.now.root operator target.now.steps target.now.place) }
{
    match &target.root {
        RRoot::Variable(Variable::SelfValue) => walk_self_set(
            fact,
            property,
            operator,
            target.steps.as_slice(),
            target.place,
        ),
        RRoot::Variable(Variable::Local(_)) => skip(),
        RRoot::Object(_) => skip(),
    }
}

fn walk_assign(
    fact: Fact,
    property: &Key,
    target: &RPlace,
    operator: AssignmentOperator,
    value: &RExpr,
) -> Flow
    ensures { result ≡ spec.flow (act fact property.now) (assign_way target.now operator value.now) }
{
    then(
        &walk_root(fact, property, &target.root),
        &then(
            &walk_expr(fact, property, value),
            &walk_set(fact, property, target, operator),
        ),
    )
}

fn walk_return(fact: Fact, property: &Key, place: Place, value: &Option<RExpr>) -> Flow
    ensures { result ≡ spec.flow (act fact property.now) (return_way place value.now) }
{
    then(
        &walk_optional(fact, property, value),
        &then(&step(on_leaving(fact, property, place)), &stopping()),
    )
}

fn walk_store(fact: Fact, property: &Key, place: Place, key: &Key, value: &RExpr) -> Flow
    ensures { result ≡ spec.flow (act fact property.now) (store_way place key.now value.now) }
{
    then(
        &walk_expr(fact, property, value),
        &step(on_store(fact, property, place, key)),
    )
}

fn walk_switch(fact: Fact, property: &Key, value: &RExpr, through: &Flow) -> Flow
    ensures { result ≡ switch_flow (act fact property.now) value.now through.now }
{
    then(&walk_expr(fact, property, value), &leaving_switch(through))
}

#[cycle(statements)]
fn walk_statements(fact: Fact, property: &Key, statements: &Items<RStmt>) -> Flow
    ensures { result ≡ spec.flow (act fact property.now) (in_turn (map stmt_way statements.now)) }
{
    let mut flow = skip();
    for statement in statements.as_slice() {
        flow = then(&flow, &walk_stmt(fact, property, statement));
    }
    flow
}

/// What a block does to a fact.
#[cycle(statements)]
pub(crate) fn walk_block(fact: Fact, property: &Key, block: &RBlock) -> Flow
    ensures { result ≡ spec.flow (act fact property.now) (block_way block.now) }
{
    walk_statements(fact, property, &block.statements)
}

#[cycle(statements)]
fn walk_branches(fact: Fact, property: &Key, items: &Items<RBranch>) -> Flow
    ensures { result ≡ spec.flow (act fact property.now) (branches_way (map (λ b. (b.0, block_way b.1)) items.now)) }
{
    let branches = items.as_slice();
    let mut rest = skip();
    for i in (0..branches.len()).rev() {
        let branch = &branches[i];
        let block = walk_block(fact, property, &branch.1);
        rest = walk_branch(fact, property, &branch.0, &block, &rest);
    }
    rest
}

#[cycle(statements)]
fn walk_clauses(fact: Fact, property: &Key, clauses: &Items<RClause>) -> Flow
    ensures { result ≡ spec.flow (act fact property.now) (any_of (map (λ c. in_turn (map stmt_way (out-RClause c).statements)) clauses.now)) }
{
    let mut flow = stopping();
    for clause in clauses.as_slice() {
        flow = either(&flow, &walk_statements(fact, property, &clause.statements));
    }
    flow
}

/// What a statement does to a fact.
#[cycle(statements)]
pub(crate) fn walk_stmt(fact: Fact, property: &Key, statement: &RStmt) -> Flow
    ensures { result ≡ spec.flow (act fact property.now) (stmt_way statement.now) }
{
    match statement {
        RStmt::Local(_, _, _, value) => walk_expr(fact, property, value),
        RStmt::Expr(value) => walk_expr(fact, property, value),
        RStmt::Assign(_, target, operator, value) => {
            walk_assign(fact, property, target, *operator, value)
        }
        RStmt::Fill(place, key, value) => walk_store(fact, property, *place, key, value),
        RStmt::SelfInit(applied) => then(
            &walk_args(fact, property, &applied.1),
            &step(on_delegate(fact, property, applied.0.place)),
        ),
        RStmt::SuperInit(applied) => then(
            &walk_args(fact, property, &applied.1),
            &step(on_super(fact, property, applied.0.place)),
        ),
        RStmt::If(_, branches) => walk_branches(fact, property, branches),
        RStmt::While(_, condition, block) => {
            walk_turn(
                fact,
                property,
                condition,
                &walk_block(fact, property, block),
            )
        }
        RStmt::Return(place, value) => walk_return(fact, property, *place, value),
        RStmt::Break(_) => breaking(),
        RStmt::Continue(_) => continuing(),
        RStmt::Switch(_, value, clauses) => {
            let through = walk_clauses(fact, property, clauses);
            walk_switch(fact, property, value, &through)
        }
    }
}
