//! Expressions.

ghost use Rattle.std.specs.Prelude.{◌≡◌, ◌++◌, OnOk, codes};
ghost use Rattle.std.specs.List.{flat_map};
ghost use Rattle.evo_tree.specs.Canonical.{call_arguments, expr_text, infix_text, optional};
ghost use Rattle.evo_print.specs.Texts.{call, member, operand};

use crate::label::{print_label, print_named};
use crate::literal::{print_negative, print_string};
use crate::part::Part;
use crate::printer::Printer;
use crate::words;
use evo_tree::{Argument, Expr, Identifier, InfixOperator, Member, Operand};
use sqlite_items::{Boxed, Items};
use std::alloc::AllocError;

/// An operator with a blank on each side.
fn print_infix(out: &mut Printer, operator: InfixOperator) -> Result<(), AllocError>
    ensures { OnOk result (out.new ≡ out.old ++ (codes " " ++ infix_text operator ++ codes " ")) }
{
    out.put(b" ")?;
    out.put(words::infix(operator))?;
    out.put(b" ")
}

/// Arguments in parentheses.
#[cycle(expressions)]
fn print_arguments(out: &mut Printer, items: &Items<Argument>) -> Result<(), AllocError>
    ensures { OnOk result (out.new ≡ out.old ++ call_arguments items.now) }
{
    out.put(b"(")?;
    for (index, (label, value)) in items.as_slice().iter().enumerate() {
        out.put_between(index, b", ")?;
        print_label(out, label)?;
        print_expr(out, value)?;
    }
    out.put(b")")
}

/// The arguments of a name, where it is called.
#[cycle(expressions)]
fn print_call(out: &mut Printer, arguments: &Option<Items<Argument>>) -> Result<(), AllocError>
    ensures { OnOk result (out.new ≡ out.old ++ optional call_arguments arguments.now) }
{
    match arguments {
        Some(arguments) => print_arguments(out, arguments),
        None => Ok(()),
    }
}

#[cycle(expressions)]
fn print_members(out: &mut Printer, items: &Items<Member>) -> Result<(), AllocError>
    ensures { OnOk result (out.new ≡ out.old ++ flat_map member items.now) }
{
    for item in items.as_slice() {
        print_named(out, b".", &item.0)?;
        print_call(out, &item.1)?;
    }
    Ok(())
}

#[cycle(expressions)]
fn print_operands(out: &mut Printer, items: &Items<Operand>) -> Result<(), AllocError>
    ensures { OnOk result (out.new ≡ out.old ++ flat_map operand items.now) }
{
    for (operator, value) in items.as_slice() {
        print_infix(out, *operator)?;
        print_expr(out, value)?;
    }
    Ok(())
}

#[cycle(expressions)]
fn print_boxed(out: &mut Printer, expr: &Boxed<Expr>) -> Result<(), AllocError>
    ensures { OnOk result (out.new ≡ out.old ++ expr_text expr.now) }
{
    print_expr(out, expr.get())
}

#[cycle(expressions)]
fn print_expr(out: &mut Printer, expr: &Expr) -> Result<(), AllocError>
    ensures { OnOk result (out.new ≡ out.old ++ expr_text expr.now) }
{
    match expr {
        Expr::Integer(_, value) => out.put_number(*value),
        Expr::Negative(_, value) => print_negative(out, *value),
        Expr::String(_, characters) => print_string(out, characters),
        Expr::Boolean(_, value) => out.put(words::boolean(*value)),
        Expr::Name(name, call) => {
            name.print(out)?;
            print_call(out, call)
        }
        Expr::SelfValue(_) => out.put(b"self"),
        Expr::SelfType(_) => out.put(b"Self"),
        Expr::Super(_, name, arguments) => {
            print_named(out, b"super.", name)?;
            print_arguments(out, arguments)
        }
        Expr::ImplicitMember(_, name, call) => {
            print_named(out, b".", name)?;
            print_call(out, call)
        }
        Expr::Parenthesised(_, inner) => {
            out.put(b"(")?;
            print_boxed(out, inner)?;
            out.put(b")")
        }
        Expr::Prefix(_, operator, inner) => {
            out.put(words::prefix(*operator))?;
            print_boxed(out, inner)
        }
        Expr::Members(first, members) => {
            print_boxed(out, first)?;
            print_members(out, members)
        }
        Expr::Chain(first, operands) => {
            print_boxed(out, first)?;
            print_operands(out, operands)
        }
    }
}

impl Part for Expr {
    ghost text = { expr_text };

    fn print(&self, out: &mut Printer) -> Result<(), AllocError> {
        print_expr(out, self)
    }
}

/// Arguments of an initialiser, behind its name.
pub(crate) fn print_initialiser(
    out: &mut Printer,
    name: &[u8],
    arguments: &Items<Argument>,
) -> Result<(), AllocError>
    ensures { OnOk result (out.new ≡ out.old ++ (name.now ++ call_arguments arguments.now)) }
{
    out.put(name)?;
    print_arguments(out, arguments)
}
