//! Copies of expressions.

ghost use Rattle.std.specs.Prelude.{◌≡◌, IfOk};
ghost use Rattle.evo_tree.specs.declared.expression.Expr.TheVariants as expression;

use crate::copy::{Copied, copy_option};
use evo_base::Place;
use evo_tree::{Argument, Expr, Identifier, Member, Operand};
use sqlite_items::{Boxed, Items};
use std::alloc::{AllocError, Global};

fn copy_name(
    alloc: Global,
    name: &Identifier,
    call: Option<Items<Argument>>,
) -> Result<Expr, AllocError>
    ensures { IfOk result (λ copy. copy ≡ expression.Name name.now call) }
{
    Ok(Expr::Name(name.copy(alloc)?, call))
}

fn copy_super(
    alloc: Global,
    place: Place,
    name: &Identifier,
    arguments: Items<Argument>,
) -> Result<Expr, AllocError>
    ensures { IfOk result (λ copy. copy ≡ expression.Super place name.now arguments) }
{
    Ok(Expr::Super(place, name.copy(alloc)?, arguments))
}

fn copy_implicit(
    alloc: Global,
    place: Place,
    name: &Identifier,
    call: Option<Items<Argument>>,
) -> Result<Expr, AllocError>
    ensures { IfOk result (λ copy. copy ≡ expression.ImplicitMember place name.now call) }
{
    Ok(Expr::ImplicitMember(place, name.copy(alloc)?, call))
}

#[cycle(copies)]
fn copy_arguments(alloc: Global, items: &Items<Argument>) -> Result<Items<Argument>, AllocError>
    ensures { IfOk result (λ copy. copy ≡ items.now) }
{
    let mut copies = Items::new(alloc);
    for (label, value) in items.as_slice() {
        copies.push((copy_option(alloc, label)?, copy_expr(alloc, value)?))?;
    }
    Ok(copies)
}

#[cycle(copies)]
fn copy_call(
    alloc: Global,
    arguments: &Option<Items<Argument>>,
) -> Result<Option<Items<Argument>>, AllocError>
    ensures { IfOk result (λ copy. copy ≡ arguments.now) }
{
    match arguments {
        Some(arguments) => Ok(Some(copy_arguments(alloc, arguments)?)),
        None => Ok(None),
    }
}

#[cycle(copies)]
fn copy_members(alloc: Global, items: &Items<Member>) -> Result<Items<Member>, AllocError>
    ensures { IfOk result (λ copy. copy ≡ items.now) }
{
    let mut copies = Items::new(alloc);
    for member in items.as_slice() {
        copies.push((member.0.copy(alloc)?, copy_call(alloc, &member.1)?))?;
    }
    Ok(copies)
}

#[cycle(copies)]
fn copy_operands(alloc: Global, items: &Items<Operand>) -> Result<Items<Operand>, AllocError>
    ensures { IfOk result (λ copy. copy ≡ items.now) }
{
    let mut copies = Items::new(alloc);
    for (operator, value) in items.as_slice() {
        copies.push((*operator, copy_expr(alloc, value)?))?;
    }
    Ok(copies)
}

#[cycle(copies)]
fn copy_boxed(alloc: Global, expr: &Boxed<Expr>) -> Result<Boxed<Expr>, AllocError>
    ensures { IfOk result (λ copy. copy ≡ expr.now) }
{
    Boxed::new(alloc, copy_expr(alloc, expr.get())?)
}

#[cycle(copies)]
fn copy_expr(alloc: Global, expr: &Expr) -> Result<Expr, AllocError>
    ensures { IfOk result (λ copy. copy ≡ expr.now) }
{
    match expr {
        Expr::Integer(place, value) => Ok(Expr::Integer(*place, *value)),
        Expr::Negative(place, value) => Ok(Expr::Negative(*place, *value)),
        Expr::String(place, text) => Ok(Expr::String(*place, text.copy(alloc)?)),
        Expr::Boolean(place, value) => Ok(Expr::Boolean(*place, *value)),
        Expr::Name(name, call) => copy_name(alloc, name, copy_call(alloc, call)?),
        Expr::SelfValue(place) => Ok(Expr::SelfValue(*place)),
        Expr::SelfType(place) => Ok(Expr::SelfType(*place)),
        Expr::Super(place, name, arguments) => {
            copy_super(alloc, *place, name, copy_arguments(alloc, arguments)?)
        }
        Expr::ImplicitMember(place, name, call) => {
            copy_implicit(alloc, *place, name, copy_call(alloc, call)?)
        }
        Expr::Parenthesised(place, inner) => {
            Ok(Expr::Parenthesised(*place, copy_boxed(alloc, inner)?))
        }
        Expr::Prefix(place, operator, inner) => {
            Ok(Expr::Prefix(*place, *operator, copy_boxed(alloc, inner)?))
        }
        Expr::Members(first, members) => {
            let first = copy_boxed(alloc, first)?;
            Ok(Expr::Members(first, copy_members(alloc, members)?))
        }
        Expr::Chain(first, operands) => {
            let first = copy_boxed(alloc, first)?;
            Ok(Expr::Chain(first, copy_operands(alloc, operands)?))
        }
    }
}

impl Copied for Expr {
    fn copy(&self, alloc: Global) -> Result<Expr, AllocError> {
        copy_expr(alloc, self)
    }
}
