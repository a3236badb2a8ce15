//! How the parser of expressions reads a text.
//!
//! An integer is shown as it is, a call and its arguments as in the source, `[x]` for parentheses, `(- x)` for an
//! operator before its operand, `{x .m}` for members, `<x + y>` for a chain, and behind `@` the number of the first
//! token that is not read.

use evo_base::Name;
use evo_lex::lex;
use evo_parse_expr::parse_expr;
use evo_tree::{Argument, Expr, Identifier, InfixOperator, Member, Operand, PrefixOperator};
use sqlite_items::{Boxed, Items};
use std::alloc::{AllocError, Global};
use std::fmt::Write;

pub fn put(out: &mut String, name: &Name) -> Result<(), AllocError> {
    if let Ok(text) = str::from_utf8(name.as_slice()) {
        out.push_str(text)?;
    }
    Ok(())
}

fn sign(operator: PrefixOperator) -> &'static str {
    match operator {
        PrefixOperator::Minus => "(- ",
        PrefixOperator::Not => "(! ",
    }
}

fn infix(operator: InfixOperator) -> &'static str {
    match operator {
        InfixOperator::Or => "||",
        InfixOperator::And => "&&",
        InfixOperator::Equal => "==",
        InfixOperator::NotEqual => "!=",
        InfixOperator::Less => "<",
        InfixOperator::LessOrEqual => "<=",
        InfixOperator::Greater => ">",
        InfixOperator::GreaterOrEqual => ">=",
        InfixOperator::Identical => "===",
        InfixOperator::NotIdentical => "!==",
        InfixOperator::Add => "+",
        InfixOperator::Subtract => "-",
        InfixOperator::WrappingAdd => "&+",
        InfixOperator::WrappingSubtract => "&-",
        InfixOperator::Multiply => "*",
        InfixOperator::Divide => "/",
        InfixOperator::Remainder => "%",
        InfixOperator::WrappingMultiply => "&*",
    }
}

#[cycle(shown)]
fn show_arguments(out: &mut String, items: &Items<Argument>) -> Result<(), AllocError> {
    out.push_str("(")?;
    let mut first = true;
    for (label, value) in items.as_slice() {
        show_comma(out, first)?;
        show_label(out, label)?;
        show(out, value)?;
        first = false;
    }
    out.push_str(")")?;
    Ok(())
}

#[cycle(shown)]
fn show_call(out: &mut String, arguments: &Option<Items<Argument>>) -> Result<(), AllocError> {
    match arguments {
        Some(arguments) => show_arguments(out, arguments),
        None => Ok(()),
    }
}

#[cycle(shown)]
fn show_members(out: &mut String, items: &Items<Member>) -> Result<(), AllocError> {
    for member in items.as_slice() {
        show_name(out, " .", &member.0)?;
        show_call(out, &member.1)?;
    }
    Ok(())
}

#[cycle(shown)]
fn show_operands(out: &mut String, items: &Items<Operand>) -> Result<(), AllocError> {
    for (operator, value) in items.as_slice() {
        show_infix(out, *operator)?;
        show(out, value)?;
    }
    Ok(())
}

fn show_comma(out: &mut String, first: bool) -> Result<(), AllocError> {
    if !first {
        out.push_str(", ")?;
    }
    Ok(())
}

fn show_label(out: &mut String, label: &Option<Identifier>) -> Result<(), AllocError> {
    if let Some(label) = label {
        put(out, &label.text)?;
        out.push_str(": ")?;
    }
    Ok(())
}

fn show_infix(out: &mut String, operator: InfixOperator) -> Result<(), AllocError> {
    out.push_str(" ")?;
    out.push_str(infix(operator))?;
    out.push_str(" ")?;
    Ok(())
}

fn show_name(out: &mut String, dot: &str, name: &Identifier) -> Result<(), AllocError> {
    out.push_str(dot)?;
    put(out, &name.text)
}

fn show_leaf(out: &mut String, expr: &Expr) -> Result<(), AllocError> {
    match expr {
        Expr::Integer(_, value) => write!(out, "{value}")?,
        Expr::Negative(_, value) => write!(out, "-{value}")?,
        Expr::String(_, text) => {
            out.push_str("\"")?;
            put(out, text)?;
            out.push_str("\"")?;
        }
        Expr::Boolean(_, true) => out.push_str("true")?,
        Expr::Boolean(_, false) => out.push_str("false")?,
        Expr::SelfValue(_) => out.push_str("self")?,
        Expr::SelfType(_) => out.push_str("Self")?,
        _ => {}
    }
    Ok(())
}

#[cycle(shown)]
fn show_between(out: &mut String, open: &str, expr: &Boxed<Expr>) -> Result<(), AllocError> {
    out.push_str(open)?;
    show(out, expr.get())
}

#[cycle(shown)]
fn show(out: &mut String, expr: &Expr) -> Result<(), AllocError> {
    match expr {
        Expr::Name(name, call) => {
            show_name(out, "", name)?;
            show_call(out, call)
        }
        Expr::Super(_, name, arguments) => {
            show_name(out, "super.", name)?;
            show_arguments(out, arguments)
        }
        Expr::ImplicitMember(_, name, call) => {
            show_name(out, ".", name)?;
            show_call(out, call)
        }
        Expr::Parenthesised(_, inner) => {
            show_between(out, "[", inner)?;
            Ok(out.push_str("]")?)
        }
        Expr::Prefix(_, operator, inner) => {
            show_between(out, sign(*operator), inner)?;
            Ok(out.push_str(")")?)
        }
        Expr::Members(first, members) => {
            show_between(out, "{", first)?;
            show_members(out, members)?;
            Ok(out.push_str("}")?)
        }
        Expr::Chain(first, operands) => {
            show_between(out, "<", first)?;
            show_operands(out, operands)?;
            Ok(out.push_str(">")?)
        }
        _ => show_leaf(out, expr),
    }
}

// An expression, and how many tokens it takes.
fn show_read(alloc: Global, expr: &Expr, end: u64) -> Result<String, AllocError> {
    let mut out = String::new(alloc);
    show(&mut out, expr)?;
    out.push_str(&format!(in alloc; " @{end}")?)?;
    Ok(out)
}

/// What the parser of expressions reads at the front of a text.
pub fn shown(alloc: Global, text: &str) -> Result<String, AllocError> {
    let bytes = text.as_bytes();
    if bytes.len() > 1_000 {
        return String::from_str(alloc, "too long");
    }
    let Ok(tokens) = lex(alloc, bytes) else {
        return String::from_str(alloc, "no tokens");
    };
    match parse_expr(alloc, bytes, &tokens, 0, 0) {
        Ok((expr, end)) => show_read(alloc, &expr, end),
        Err(_) => String::from_str(alloc, "refused"),
    }
}
