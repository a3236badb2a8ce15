//! Copies of patterns and statements.

ghost use Rattle.std.specs.Prelude.{◌≡◌, IfOk};
ghost use Rattle.evo_tree.specs.declared.statement.Stmt.TheVariants as statement;

use crate::copy::{Copied, copy_list, copy_option};
use evo_base::{List, Place};
use evo_tree::{
    Argument, AssignmentOperator, Binding, Block, Branch, Clause, ClauseLabel, Expr, Identifier,
    Introducer, Pattern, Stmt, TypeName,
};
use sqlite_items::Items;
use std::alloc::{AllocError, Global};

impl Copied for Binding {
    fn copy(&self, alloc: Global) -> Result<Binding, AllocError> {
        Ok(Binding {
            label: copy_option(alloc, &self.label)?,
            name: copy_option(alloc, &self.name)?,
        })
    }
}

fn copy_bindings(
    alloc: Global,
    bindings: &Option<List<Binding>>,
) -> Result<Option<List<Binding>>, AllocError>
    ensures { IfOk result (λ copy. copy ≡ bindings.now) }
{
    match bindings {
        Some(bindings) => Ok(Some(copy_list(alloc, bindings)?)),
        None => Ok(None),
    }
}

impl Copied for Pattern {
    fn copy(&self, alloc: Global) -> Result<Pattern, AllocError> {
        match self {
            Pattern::Case(place, type_name, name, bindings) => Ok(Pattern::Case(
                *place,
                copy_option(alloc, type_name)?,
                name.copy(alloc)?,
                copy_bindings(alloc, bindings)?,
            )),
            Pattern::Integer(place, value) => Ok(Pattern::Integer(*place, *value)),
            Pattern::Negative(place, value) => Ok(Pattern::Negative(*place, *value)),
            Pattern::String(place, text) => Ok(Pattern::String(*place, text.copy(alloc)?)),
            Pattern::Boolean(place, value) => Ok(Pattern::Boolean(*place, *value)),
        }
    }
}

impl Copied for ClauseLabel {
    fn copy(&self, alloc: Global) -> Result<ClauseLabel, AllocError> {
        match self {
            ClauseLabel::Case(patterns) => Ok(ClauseLabel::Case(copy_list(alloc, patterns)?)),
            ClauseLabel::Default => Ok(ClauseLabel::Default),
            ClauseLabel::UnknownDefault => Ok(ClauseLabel::UnknownDefault),
        }
    }
}

/// Equal arguments.
fn copy_arguments(alloc: Global, items: &Items<Argument>) -> Result<Items<Argument>, AllocError>
    ensures { IfOk result (λ copy. copy ≡ items.now) }
{
    let mut copies = Items::new(alloc);
    for (label, value) in items.as_slice() {
        copies.push((copy_option(alloc, label)?, value.copy(alloc)?))?;
    }
    Ok(copies)
}

fn copy_local(
    alloc: Global,
    place: Place,
    introducer: Introducer,
    name: &Identifier,
    type_name: &Option<TypeName>,
    value: &Expr,
) -> Result<Stmt, AllocError>
    ensures { IfOk result (λ copy. copy ≡ statement.Local place introducer name.now type_name.now value.now) }
{
    let name = name.copy(alloc)?;
    let type_name = copy_option(alloc, type_name)?;
    let value = value.copy(alloc)?;
    Ok(Stmt::Local(place, introducer, name, type_name, value))
}

fn copy_assign(
    alloc: Global,
    target: &Expr,
    operator: AssignmentOperator,
    value: &Expr,
) -> Result<Stmt, AllocError>
    ensures { IfOk result (λ copy. copy ≡ statement.Assign target.now operator value.now) }
{
    let target = target.copy(alloc)?;
    Ok(Stmt::Assign(target, operator, value.copy(alloc)?))
}

fn copy_while(
    alloc: Global,
    place: Place,
    condition: &Expr,
    block: Block,
) -> Result<Stmt, AllocError>
    ensures { IfOk result (λ copy. copy ≡ statement.While place condition.now block) }
{
    Ok(Stmt::While(place, condition.copy(alloc)?, block))
}

fn copy_switch(
    alloc: Global,
    place: Place,
    value: &Expr,
    clauses: Items<Clause>,
) -> Result<Stmt, AllocError>
    ensures { IfOk result (λ copy. copy ≡ statement.Switch place value.now clauses) }
{
    Ok(Stmt::Switch(place, value.copy(alloc)?, clauses))
}

#[cycle(copies)]
fn copy_stmts(alloc: Global, items: &Items<Stmt>) -> Result<Items<Stmt>, AllocError>
    ensures { IfOk result (λ copy. copy ≡ items.now) }
{
    let mut copies = Items::new(alloc);
    for stmt in items.as_slice() {
        copies.push(copy_stmt(alloc, stmt)?)?;
    }
    Ok(copies)
}

#[cycle(copies)]
fn copy_block(alloc: Global, block: &Block) -> Result<Block, AllocError>
    ensures { IfOk result (λ copy. copy ≡ block.now) }
{
    Ok(Block {
        place: block.place,
        statements: copy_stmts(alloc, &block.statements)?,
        end: block.end,
    })
}

#[cycle(copies)]
fn copy_branches(alloc: Global, items: &Items<Branch>) -> Result<Items<Branch>, AllocError>
    ensures { IfOk result (λ copy. copy ≡ items.now) }
{
    let mut copies = Items::new(alloc);
    for (condition, block) in items.as_slice() {
        copies.push((copy_option(alloc, condition)?, copy_block(alloc, block)?))?;
    }
    Ok(copies)
}

#[cycle(copies)]
fn copy_clauses(alloc: Global, items: &Items<Clause>) -> Result<Items<Clause>, AllocError>
    ensures { IfOk result (λ copy. copy ≡ items.now) }
{
    let mut copies = Items::new(alloc);
    for clause in items.as_slice() {
        copies.push(copy_clause(alloc, clause)?)?;
    }
    Ok(copies)
}

#[cycle(copies)]
fn copy_clause(alloc: Global, clause: &Clause) -> Result<Clause, AllocError>
    ensures { IfOk result (λ copy. copy ≡ clause.now) }
{
    Ok(Clause {
        place: clause.place,
        label: clause.label.copy(alloc)?,
        statements: copy_stmts(alloc, &clause.statements)?,
    })
}

#[cycle(copies)]
fn copy_stmt(alloc: Global, stmt: &Stmt) -> Result<Stmt, AllocError>
    ensures { IfOk result (λ copy. copy ≡ stmt.now) }
{
    match stmt {
        Stmt::Local(place, introducer, name, type_name, value) => {
            copy_local(alloc, *place, *introducer, name, type_name, value)
        }
        Stmt::Discard(place, value) => Ok(Stmt::Discard(*place, value.copy(alloc)?)),
        Stmt::Assign(target, operator, value) => copy_assign(alloc, target, *operator, value),
        Stmt::Expr(value) => Ok(Stmt::Expr(value.copy(alloc)?)),
        Stmt::SelfInit(place, arguments) => {
            Ok(Stmt::SelfInit(*place, copy_arguments(alloc, arguments)?))
        }
        Stmt::SuperInit(place, arguments) => {
            Ok(Stmt::SuperInit(*place, copy_arguments(alloc, arguments)?))
        }
        Stmt::If(place, branches) => Ok(Stmt::If(*place, copy_branches(alloc, branches)?)),
        Stmt::While(place, condition, block) => {
            let block = copy_block(alloc, block)?;
            copy_while(alloc, *place, condition, block)
        }
        Stmt::Return(place, value) => Ok(Stmt::Return(*place, copy_option(alloc, value)?)),
        Stmt::Break(place) => Ok(Stmt::Break(*place)),
        Stmt::Continue(place) => Ok(Stmt::Continue(*place)),
        Stmt::Switch(place, value, clauses) => {
            let clauses = copy_clauses(alloc, clauses)?;
            copy_switch(alloc, *place, value, clauses)
        }
    }
}

impl Copied for Block {
    fn copy(&self, alloc: Global) -> Result<Block, AllocError> {
        copy_block(alloc, self)
    }
}

impl Copied for Clause {
    fn copy(&self, alloc: Global) -> Result<Clause, AllocError> {
        copy_clause(alloc, self)
    }
}

impl Copied for Stmt {
    fn copy(&self, alloc: Global) -> Result<Stmt, AllocError> {
        copy_stmt(alloc, self)
    }
}
