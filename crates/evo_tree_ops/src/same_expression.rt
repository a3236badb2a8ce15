//! Expressions that are the same but for places.

ghost use Rattle.std.specs.Prelude.{◌≡◌, ◌↔◌, IsTrue, map};
ghost use Rattle.std.specs.Option.{option_map};
ghost use Rattle.evo_tree.specs.Bare.{bare_argument, bare_expr, bare_member, bare_operand};

use crate::compared::{Compared, both, same_option};
use evo_tree::{Argument, Expr, InfixOperator, Member, Operand, PrefixOperator};
use sqlite_items::{Boxed, Items};

fn same_prefix(a: PrefixOperator, b: PrefixOperator) -> bool
    ensures { IsTrue result ↔ (a ≡ b) }
{
    a == b
}

fn same_infix(a: InfixOperator, b: InfixOperator) -> bool
    ensures { IsTrue result ↔ (a ≡ b) }
{
    a == b
}

#[cycle(sames)]
pub(crate) fn same_arguments(a: &Items<Argument>, b: &Items<Argument>) -> bool
    ensures { IsTrue result ↔ (map bare_argument a.now ≡ map bare_argument b.now) }
{
    let xs = a.as_slice();
    let ys = b.as_slice();
    if xs.len() != ys.len() {
        return false;
    }
    for i in 0..xs.len() {
        let x = &xs[i];
        let y = &ys[i];
        if !both(same_option(&x.0, &y.0), same_expr(&x.1, &y.1)) {
            return false;
        }
    }
    true
}

#[cycle(sames)]
fn same_call(a: &Option<Items<Argument>>, b: &Option<Items<Argument>>) -> bool
    ensures { IsTrue result ↔ (option_map (map bare_argument) a.now ≡ option_map (map bare_argument) b.now) }
{
    match a {
        None => match b {
            None => true,
            Some(_) => false,
        },
        Some(xs) => match b {
            Some(ys) => same_arguments(xs, ys),
            None => false,
        },
    }
}

#[cycle(sames)]
fn same_members(a: &Items<Member>, b: &Items<Member>) -> bool
    ensures { IsTrue result ↔ (map bare_member a.now ≡ map bare_member b.now) }
{
    let xs = a.as_slice();
    let ys = b.as_slice();
    if xs.len() != ys.len() {
        return false;
    }
    for i in 0..xs.len() {
        let x = &xs[i];
        let y = &ys[i];
        if !both(x.0.same(&y.0), same_call(&x.1, &y.1)) {
            return false;
        }
    }
    true
}

#[cycle(sames)]
fn same_operands(a: &Items<Operand>, b: &Items<Operand>) -> bool
    ensures { IsTrue result ↔ (map bare_operand a.now ≡ map bare_operand b.now) }
{
    let xs = a.as_slice();
    let ys = b.as_slice();
    if xs.len() != ys.len() {
        return false;
    }
    for i in 0..xs.len() {
        let x = &xs[i];
        let y = &ys[i];
        if !both(same_infix(x.0, y.0), same_expr(&x.1, &y.1)) {
            return false;
        }
    }
    true
}

#[cycle(sames)]
fn same_boxed(a: &Boxed<Expr>, b: &Boxed<Expr>) -> bool
    ensures { IsTrue result ↔ (bare_expr a.now ≡ bare_expr b.now) }
{
    same_expr(a.get(), b.get())
}

#[cycle(sames)]
fn same_expr(a: &Expr, b: &Expr) -> bool
    ensures { IsTrue result ↔ (bare_expr a.now ≡ bare_expr b.now) }
{
    match a {
        Expr::Integer(_, x) => matches!(b, Expr::Integer(_, y) if *x == *y),
        Expr::Negative(_, x) => matches!(b, Expr::Negative(_, y) if *x == *y),
        Expr::String(_, x) => matches!(b, Expr::String(_, y) if x.same(y)),
        Expr::Boolean(_, x) => matches!(b, Expr::Boolean(_, y) if *x == *y),
        Expr::Name(n, xs) => match b {
            Expr::Name(m, ys) => both(n.same(m), same_call(xs, ys)),
            _ => false,
        },
        Expr::SelfValue(_) => matches!(b, Expr::SelfValue(_)),
        Expr::SelfType(_) => matches!(b, Expr::SelfType(_)),
        Expr::Super(_, n, xs) => match b {
            Expr::Super(_, m, ys) => both(n.same(m), same_arguments(xs, ys)),
            _ => false,
        },
        Expr::ImplicitMember(_, n, xs) => match b {
            Expr::ImplicitMember(_, m, ys) => both(n.same(m), same_call(xs, ys)),
            _ => false,
        },
        Expr::Parenthesised(_, x) => match b {
            Expr::Parenthesised(_, y) => same_boxed(x, y),
            _ => false,
        },
        Expr::Prefix(_, o, x) => match b {
            Expr::Prefix(_, p, y) => both(same_prefix(*o, *p), same_boxed(x, y)),
            _ => false,
        },
        Expr::Members(x, xs) => match b {
            Expr::Members(y, ys) => both(same_boxed(x, y), same_members(xs, ys)),
            _ => false,
        },
        Expr::Chain(x, xs) => match b {
            Expr::Chain(y, ys) => both(same_boxed(x, y), same_operands(xs, ys)),
            _ => false,
        },
    }
}

impl Compared for Expr {
    ghost bare = { bare_expr };

    fn same(&self, other: &Expr) -> bool {
        same_expr(self, other)
    }
}
