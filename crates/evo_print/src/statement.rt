//! Statements and blocks, each by how deep it stands.

ghost use Rattle.std.specs.Prelude.{◌≡◌, ◌++◌, OnOk, codes};
ghost use Rattle.std.specs.List.{flat_map, join_by};
ghost use Rattle.evo_tree.specs.Canonical.{assignment_text, block_text, expr_text, introducer_text, line, name_text, optional, stmt_text, typed};
ghost use Rattle.evo_tree.specs.Canonical as spec;
ghost use Rattle.evo_print.specs.Texts.{branch, clause_lines, words_of};

use crate::expression::print_initialiser;
use crate::label::print_named;
use crate::part::{Part, print_optional};
use crate::printer::{Printer, deeper};
use crate::words;
use evo_tree::{
    AssignmentOperator, Block, Branch, Clause, ClauseLabel, Expr, Identifier, Introducer, Stmt,
    TypeName,
};
use sqlite_items::Items;
use std::alloc::AllocError;

/// An expression behind a word.
fn print_value(out: &mut Printer, word: &[u8], value: &Expr) -> Result<(), AllocError>
    ensures { OnOk result (out.new ≡ out.old ++ (word.now ++ expr_text value.now)) }
{
    out.put(word)?;
    value.print(out)
}

fn print_local(
    out: &mut Printer,
    introducer: Introducer,
    name: &Identifier,
    type_name: &Option<TypeName>,
    value: &Expr,
) -> Result<(), AllocError>
    ensures { OnOk result (out.new ≡ out.old
        ++ (introducer_text introducer ++ name_text name.now ++ optional typed type_name.now ++ codes " = " ++ expr_text value.now)) }
{
    print_named(out, words::introducer(introducer), name)?;
    print_optional(out, b": ", type_name)?;
    print_value(out, b" = ", value)
}

fn print_assignment(
    out: &mut Printer,
    target: &Expr,
    operator: AssignmentOperator,
    value: &Expr,
) -> Result<(), AllocError>
    ensures { OnOk result (out.new ≡ out.old
        ++ (expr_text target.now ++ codes " " ++ assignment_text operator ++ codes " " ++ expr_text value.now)) }
{
    target.print(out)?;
    out.put(b" ")?;
    out.put(words::assignment(operator))?;
    print_value(out, b" ", value)
}

fn print_return(out: &mut Printer, value: &Option<Expr>) -> Result<(), AllocError>
    ensures { OnOk result (out.new ≡ out.old ++ (codes "return" ++ optional (λ x. codes " " ++ expr_text x) value.now)) }
{
    out.put(b"return")?;
    print_optional(out, b" ", value)
}

/// The condition of a branch, where it has one.
fn print_condition(out: &mut Printer, condition: &Option<Expr>) -> Result<(), AllocError>
    ensures { OnOk result (out.new ≡ out.old ++ optional (λ x. codes "if " ++ expr_text x ++ codes " ") condition.now) }
{
    match condition {
        Some(condition) => {
            print_value(out, b"if ", condition)?;
            out.put(b" ")
        }
        None => Ok(()),
    }
}

/// A clause's label, on a line of its own.
fn print_clause_label(out: &mut Printer, label: &ClauseLabel, depth: u64) -> Result<(), AllocError>
    ensures { OnOk result (out.new ≡ out.old ++ line depth (spec.clause_text label.now)) }
{
    out.put_indent(depth)?;
    label.print(out)?;
    out.put(b"\n")
}

#[cycle(statements)]
fn print_stmts(out: &mut Printer, items: &Items<Stmt>, depth: u64) -> Result<(), AllocError>
    ensures { OnOk result (out.new ≡ out.old ++ flat_map (λ s. stmt_text s depth) items.now) }
{
    for stmt in items.as_slice() {
        print_stmt(out, stmt, depth)?;
    }
    Ok(())
}

/// Statements in braces. The last line has no line feed yet.
#[cycle(statements)]
pub(crate) fn print_block(out: &mut Printer, block: &Block, depth: u64) -> Result<(), AllocError>
    ensures { OnOk result (out.new ≡ out.old ++ block_text block.now depth) }
{
    let inner = deeper(depth)?;
    out.put(b"{\n")?;
    print_stmts(out, &block.statements, inner)?;
    out.close(depth)
}

#[cycle(statements)]
fn print_branches(out: &mut Printer, items: &Items<Branch>, depth: u64) -> Result<(), AllocError>
    ensures { OnOk result (out.new ≡ out.old ++ join_by (branch depth) (codes " else ") items.now) }
{
    for (index, (condition, block)) in items.as_slice().iter().enumerate() {
        out.put_between(index, b" else ")?;
        print_condition(out, condition)?;
        print_block(out, block, depth)?;
    }
    Ok(())
}

#[cycle(statements)]
fn print_clause(out: &mut Printer, clause: &Clause, depth: u64) -> Result<(), AllocError>
    ensures { OnOk result (out.new ≡ out.old ++ clause_lines clause.now depth) }
{
    let inner = deeper(depth)?;
    print_clause_label(out, &clause.label, depth)?;
    print_stmts(out, &clause.statements, inner)
}

#[cycle(statements)]
fn print_clauses(out: &mut Printer, items: &Items<Clause>, depth: u64) -> Result<(), AllocError>
    ensures { OnOk result (out.new ≡ out.old ++ flat_map (λ c. clause_lines c depth) items.now) }
{
    for clause in items.as_slice() {
        print_clause(out, clause, depth)?;
    }
    Ok(())
}

/// A statement without the blanks before it and the line feed behind it.
#[cycle(statements)]
fn print_words(out: &mut Printer, stmt: &Stmt, depth: u64) -> Result<(), AllocError>
    ensures { OnOk result (out.new ≡ out.old ++ words_of stmt.now depth) }
{
    match stmt {
        Stmt::Local(_, introducer, name, type_name, value) => {
            print_local(out, *introducer, name, type_name, value)
        }
        Stmt::Discard(_, value) => print_value(out, b"_ = ", value),
        Stmt::Assign(target, operator, value) => print_assignment(out, target, *operator, value),
        Stmt::Expr(value) => value.print(out),
        Stmt::SelfInit(_, arguments) => print_initialiser(out, b"self.init", arguments),
        Stmt::SuperInit(_, arguments) => print_initialiser(out, b"super.init", arguments),
        Stmt::If(_, branches) => print_branches(out, branches, depth),
        Stmt::While(_, condition, block) => {
            print_value(out, b"while ", condition)?;
            out.put(b" ")?;
            print_block(out, block, depth)
        }
        Stmt::Return(_, value) => print_return(out, value),
        Stmt::Break(_) => out.put(b"break"),
        Stmt::Continue(_) => out.put(b"continue"),
        Stmt::Switch(_, value, clauses) => {
            print_value(out, b"switch ", value)?;
            out.put(b" {\n")?;
            print_clauses(out, clauses, depth)?;
            out.close(depth)
        }
    }
}

/// A statement, on lines of its own.
#[cycle(statements)]
pub(crate) fn print_stmt(out: &mut Printer, stmt: &Stmt, depth: u64) -> Result<(), AllocError>
    ensures { OnOk result (out.new ≡ out.old ++ stmt_text stmt.now depth) }
{
    out.put_indent(depth)?;
    print_words(out, stmt, depth)?;
    out.put(b"\n")
}
