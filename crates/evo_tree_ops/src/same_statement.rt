//! Patterns and statements that are the same but for places.

ghost use Rattle.std.specs.Prelude.{◌≡◌, ◌↔◌, IsTrue, map};
ghost use Rattle.std.specs.Option.{option_map};
ghost use Rattle.evo_tree.specs.Bare.{bare_binding, bare_block, bare_branch, bare_clause, bare_clause_label, bare_pattern, bare_stmt};

use crate::compared::{Compared, both, same_list, same_option};
use crate::same_expression::same_arguments;
use evo_base::List;
use evo_tree::{
    AssignmentOperator, Binding, Block, Branch, Clause, ClauseLabel, Introducer, Pattern, Stmt,
};
use sqlite_items::Items;

pub(crate) fn same_introducer(a: Introducer, b: Introducer) -> bool
    ensures { IsTrue result ↔ (a ≡ b) }
{
    a == b
}

fn same_assignment(a: AssignmentOperator, b: AssignmentOperator) -> bool
    ensures { IsTrue result ↔ (a ≡ b) }
{
    a == b
}

impl Compared for Binding {
    ghost bare = { bare_binding };

    fn same(&self, other: &Binding) -> bool {
        both(
            same_option(&self.label, &other.label),
            same_option(&self.name, &other.name),
        )
    }
}

fn same_bindings(a: &Option<List<Binding>>, b: &Option<List<Binding>>) -> bool
    ensures { IsTrue result ↔ (option_map (map bare_binding) a.now ≡ option_map (map bare_binding) b.now) }
{
    match a {
        Some(xs) => match b {
            Some(ys) => same_list(xs, ys),
            None => false,
        },
        None => match b {
            Some(_) => false,
            None => true,
        },
    }
}

fn same_pattern(a: &Pattern, b: &Pattern) -> bool
    ensures { IsTrue result ↔ (bare_pattern a.now ≡ bare_pattern b.now) }
{
    match a {
        Pattern::Case(_, t, n, xs) => match b {
            Pattern::Case(_, u, m, ys) => both(
                same_option(t, u),
                both(n.same(m), same_bindings(xs, ys)),
            ),
            _ => false,
        },
        Pattern::Integer(_, x) => match b {
            Pattern::Integer(_, y) => *x == *y,
            _ => false,
        },
        Pattern::Negative(_, x) => match b {
            Pattern::Negative(_, y) => *x == *y,
            _ => false,
        },
        Pattern::String(_, x) => match b {
            Pattern::String(_, y) => x.same(y),
            _ => false,
        },
        Pattern::Boolean(_, x) => match b {
            Pattern::Boolean(_, y) => *x == *y,
            _ => false,
        },
    }
}

impl Compared for Pattern {
    ghost bare = { bare_pattern };

    fn same(&self, other: &Pattern) -> bool {
        same_pattern(self, other)
    }
}

fn same_clause_label(a: &ClauseLabel, b: &ClauseLabel) -> bool
    ensures { IsTrue result ↔ (bare_clause_label a.now ≡ bare_clause_label b.now) }
{
    match a {
        ClauseLabel::Case(xs) => match b {
            ClauseLabel::Case(ys) => same_list(xs, ys),
            _ => false,
        },
        ClauseLabel::Default => match b {
            ClauseLabel::Default => true,
            _ => false,
        },
        ClauseLabel::UnknownDefault => match b {
            ClauseLabel::UnknownDefault => true,
            _ => false,
        },
    }
}

#[cycle(sames)]
fn same_stmts(a: &Items<Stmt>, b: &Items<Stmt>) -> bool
    ensures { IsTrue result ↔ (map bare_stmt a.now ≡ map bare_stmt b.now) }
{
    let xs = a.as_slice();
    let ys = b.as_slice();
    if xs.len() != ys.len() {
        return false;
    }
    for i in 0..xs.len() {
        let x = &xs[i];
        let y = &ys[i];
        if !same_stmt(x, y) {
            return false;
        }
    }
    true
}

#[cycle(sames)]
fn same_block(a: &Block, b: &Block) -> bool
    ensures { IsTrue result ↔ (bare_block a.now ≡ bare_block b.now) }
{
    same_stmts(&a.statements, &b.statements)
}

#[cycle(sames)]
fn same_branches(a: &Items<Branch>, b: &Items<Branch>) -> bool
    ensures { IsTrue result ↔ (map bare_branch a.now ≡ map bare_branch b.now) }
{
    let xs = a.as_slice();
    let ys = b.as_slice();
    if xs.len() != ys.len() {
        return false;
    }
    for i in 0..xs.len() {
        let x = &xs[i];
        let y = &ys[i];
        if !both(same_option(&x.0, &y.0), same_block(&x.1, &y.1)) {
            return false;
        }
    }
    true
}

#[cycle(sames)]
fn same_clause(a: &Clause, b: &Clause) -> bool
    ensures { IsTrue result ↔ (bare_clause a.now ≡ bare_clause b.now) }
{
    both(
        same_clause_label(&a.label, &b.label),
        same_stmts(&a.statements, &b.statements),
    )
}

#[cycle(sames)]
fn same_clauses(a: &Items<Clause>, b: &Items<Clause>) -> bool
    ensures { IsTrue result ↔ (map bare_clause a.now ≡ map bare_clause b.now) }
{
    let xs = a.as_slice();
    let ys = b.as_slice();
    if xs.len() != ys.len() {
        return false;
    }
    for i in 0..xs.len() {
        let x = &xs[i];
        let y = &ys[i];
        if !same_clause(x, y) {
            return false;
        }
    }
    true
}

#[cycle(sames)]
fn same_stmt(a: &Stmt, b: &Stmt) -> bool
    ensures { IsTrue result ↔ (bare_stmt a.now ≡ bare_stmt b.now) }
{
    match a {
        Stmt::Local(_, k, n, t, x) => matches!(
            b,
            Stmt::Local(_, l, m, u, y)
                if both(same_introducer(*k, *l), both(n.same(m), both(same_option(t, u), x.same(y))))
        ),
        Stmt::Discard(_, x) => matches!(b, Stmt::Discard(_, y) if x.same(y)),
        Stmt::Assign(x, o, v) => matches!(
            b,
            Stmt::Assign(y, p, w)
                if both(x.same(y), both(same_assignment(*o, *p), v.same(w)))
        ),
        Stmt::Expr(x) => matches!(b, Stmt::Expr(y) if x.same(y)),
        Stmt::SelfInit(_, xs) => matches!(b, Stmt::SelfInit(_, ys) if same_arguments(xs, ys)),
        Stmt::SuperInit(_, xs) => matches!(b, Stmt::SuperInit(_, ys) if same_arguments(xs, ys)),
        Stmt::If(_, xs) => match b {
            Stmt::If(_, ys) => same_branches(xs, ys),
            _ => false,
        },
        Stmt::While(_, x, v) => match b {
            Stmt::While(_, y, w) => both(x.same(y), same_block(v, w)),
            _ => false,
        },
        Stmt::Return(_, x) => matches!(b, Stmt::Return(_, y) if same_option(x, y)),
        Stmt::Break(_) => matches!(b, Stmt::Break(_)),
        Stmt::Continue(_) => matches!(b, Stmt::Continue(_)),
        Stmt::Switch(_, x, xs) => match b {
            Stmt::Switch(_, y, ys) => both(x.same(y), same_clauses(xs, ys)),
            _ => false,
        },
    }
}

impl Compared for Block {
    ghost bare = { bare_block };

    fn same(&self, other: &Block) -> bool {
        same_block(self, other)
    }
}

impl Compared for Stmt {
    ghost bare = { bare_stmt };

    fn same(&self, other: &Stmt) -> bool {
        same_stmt(self, other)
    }
}
