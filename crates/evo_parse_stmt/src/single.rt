//! Reads single statements.

ghost use Rattle.std.specs.Prelude.{◌≡◌, ◌<◌, ℕ, List, false};
ghost use Rattle.evo_combinators.specs.Attempt.{attempt};
ghost use Rattle.evo_combinators.specs.Reader.{Reads};
ghost use Rattle.evo_tree.specs.Statements as tree;
ghost use Rattle.evo_parse_stmt.specs.ReadsInner.{ReadsInner};
ghost use Rattle.evo_parse_stmt.specs.Read as read;
ghost use Rattle.evo_parse_stmt.specs.AtDepth as spec;

use crate::lead::{expect_here, expect_later, introducer, operator, starts_init};
use crate::sequence::Statements;
use evo_base::Place;
use evo_combinators::ReadError;
use evo_parse_expr::{Cursor, call, discard, expr, is_refusal, type_name};
use evo_tree::{Block, Branch, Expr, Introducer, Stmt, Terminal, TypeName};
use sqlite_items::Items;
use std::alloc::Global;

#[tactic(auto, unfolding(crate::specs::Read::annotation))]
fn annotation(alloc: Global, tokens: &mut Cursor<'_>) -> Result<Option<TypeName>, ReadError>
    ensures { Reads (read.annotation tokens.old) result tokens.new }
{
    match tokens.mark(Terminal::Colon) {
        Some(_) => Ok(Some(type_name(alloc, tokens)?)),
        None => Ok(None),
    }
}

// Whether a branch has no condition.
fn is_last(branch: &Branch) -> bool
    ensures { result ≡ tree.has_none branch.now.0 }
{
    match branch.0 {
        None => true,
        Some(_) => false,
    }
}

impl<F: Fn(Global, &mut Cursor<'_>, u32, bool) -> Result<Stmt, ReadError>> Statements<F> {
    #[tactic(auto, unfolding(crate::specs::Read::rest_of_local))]
    fn rest_of_local(
        &self,
        tokens: &mut Cursor<'_>,
        place: Place,
        introducer: Introducer,
    ) -> Result<Stmt, ReadError>
        ensures { Reads (spec.rest_of_local self.now.inits self.now.depth (place, introducer) tokens.old) result tokens.new }
    {
        let name = tokens.expect_identifier(self.alloc)?;
        let written = annotation(self.alloc, tokens)?;
        tokens.expect_mark(Terminal::Equal)?;
        let value = expr(self.alloc, tokens, self.depth, true)?;
        Ok(Stmt::Local(place, introducer, name, written, value))
    }

    #[tactic(auto, unfolding(crate::specs::Read::rest_of_discard))]
    fn rest_of_discard(&self, tokens: &mut Cursor<'_>, place: Place) -> Result<Stmt, ReadError>
        ensures { Reads (spec.rest_of_discard self.now.inits self.now.depth place tokens.old) result tokens.new }
    {
        tokens.expect_mark(Terminal::Equal)?;
        let value = expr(self.alloc, tokens, self.depth, true)?;
        Ok(Stmt::Discard(place, value))
    }

    #[tactic(auto, unfolding(crate::specs::Read::branch))]
    fn branch(&self, tokens: &mut Cursor<'_>) -> Result<Branch, ReadError>
        requires { ReadsInner self.now.depth (F.pre self.now.statement) (F.post self.now.statement) }
        ensures { Reads (spec.branch self.now.inits self.now.depth tokens.old) result tokens.new }
    {
        let condition = expr(self.alloc, tokens, self.depth, true)?;
        match self.block(tokens) {
            Ok(block) => Ok((Some(condition), block)),
            Err(error) => {
                discard(condition);
                Err(error)
            }
        }
    }

    // A block behind `else`.
    fn last_branch(&self, tokens: &mut Cursor<'_>) -> Result<Branch, ReadError>
        requires { ReadsInner self.now.depth (F.pre self.now.statement) (F.post self.now.statement) }
        ensures { Reads (spec.last_branch self.now.inits self.now.depth tokens.old) result tokens.new }
    {
        let block = self.block(tokens)?;
        Ok((None, block))
    }

    #[tactic(auto, unfolding(crate::specs::Read::behind_else))]
    fn behind_else(&self, tokens: &mut Cursor<'_>) -> Result<Branch, ReadError>
        requires { ReadsInner self.now.depth (F.pre self.now.statement) (F.post self.now.statement) }
        ensures { Reads (spec.behind_else self.now.inits self.now.depth tokens.old) result tokens.new }
    {
        if let Some(_) = tokens.mark(Terminal::If) {
            return self.branch(tokens);
        }
        self.last_branch(tokens)
    }

    fn else_at(&self, tokens: &mut Cursor<'_>, ended: bool) -> Result<Branch, ReadError>
        requires { ReadsInner self.now.depth (F.pre self.now.statement) (F.post self.now.statement) }
        ensures { Reads (spec.else_at self.now.inits self.now.depth ended tokens.old) result tokens.new }
    {
        if ended {
            return Err(tokens.refused());
        }
        tokens.expect_mark(Terminal::Else)?;
        self.behind_else(tokens)
    }

    fn try_else(&self, tokens: &mut Cursor<'_>, ended: bool) -> Result<Option<Branch>, ReadError>
        requires { ReadsInner self.now.depth (F.pre self.now.statement) (F.post self.now.statement) }
        ensures { Reads (attempt (spec.else_at self.now.inits self.now.depth ended) tokens.old) result tokens.new }
    {
        let start = tokens.copy();
        match self.else_at(tokens, ended) {
            Ok(found) => Ok(Some(found)),
            Err(error) => {
                if !is_refusal(error, start.left()) {
                    return Err(error);
                }
                *tokens = start;
                Ok(None)
            }
        }
    }

    /// The branches behind the first one, unless one before them has no condition.
    fn further_branches(
        &self,
        tokens: &mut Cursor<'_>,
        before: bool,
    ) -> Result<Items<Branch>, ReadError>
        requires { ReadsInner self.now.depth (F.pre self.now.statement) (F.post self.now.statement) }
        ensures { Reads (spec.further_branches self.now.inits self.now.depth before tokens.old) result tokens.new }
    {
        let mut found = Items::new(self.alloc);
        let mut ended = before;
        for _turn in 0..tokens.left() {
            let Some(branch) = self.try_else(tokens, ended)? else {
                return Ok(found);
            };
            ended = is_last(&branch);
            found.push(branch)?;
        }
        Ok(found)
    }

    #[tactic(auto, unfolding(crate::specs::Read::rest_of_if))]
    fn rest_of_if(&self, tokens: &mut Cursor<'_>, place: Place) -> Result<Stmt, ReadError>
        requires { ReadsInner self.now.depth (F.pre self.now.statement) (F.post self.now.statement) }
        ensures { Reads (spec.rest_of_if self.now.inits self.now.depth place tokens.old) result tokens.new }
    {
        let mut found = Items::new(self.alloc);
        found.push(self.branch(tokens)?)?;
        found.append(self.further_branches(tokens, false)?)?;
        Ok(Stmt::If(place, found))
    }

    #[tactic(auto, unfolding(crate::specs::Read::rest_of_while))]
    fn rest_of_while(&self, tokens: &mut Cursor<'_>, place: Place) -> Result<Stmt, ReadError>
        requires { ReadsInner self.now.depth (F.pre self.now.statement) (F.post self.now.statement) }
        ensures { Reads (spec.rest_of_while self.now.inits self.now.depth place tokens.old) result tokens.new }
    {
        let condition = expr(self.alloc, tokens, self.depth, true)?;
        match self.block(tokens) {
            Ok(block) => Ok(Stmt::While(place, condition, block)),
            Err(error) => {
                discard(condition);
                Err(error)
            }
        }
    }

    #[tactic(auto, unfolding(crate::specs::Read::value_here))]
    fn value_here(&self, tokens: &mut Cursor<'_>) -> Result<Expr, ReadError>
        ensures { Reads (spec.value_here self.now.inits self.now.depth tokens.old) result tokens.new }
    {
        expect_here(tokens)?;
        expr(self.alloc, tokens, self.depth, true)
    }

    fn try_value(&self, tokens: &mut Cursor<'_>) -> Result<Option<Expr>, ReadError>
        ensures { Reads (attempt (spec.value_here self.now.inits self.now.depth) tokens.old) result tokens.new }
    {
        let start = tokens.copy();
        match self.value_here(tokens) {
            Ok(found) => Ok(Some(found)),
            Err(error) => {
                if !is_refusal(error, start.left()) {
                    return Err(error);
                }
                *tokens = start;
                Ok(None)
            }
        }
    }

    #[tactic(auto, unfolding(crate::specs::Read::rest_of_return))]
    fn rest_of_return(&self, tokens: &mut Cursor<'_>, place: Place) -> Result<Stmt, ReadError>
        ensures { Reads (spec.rest_of_return self.now.inits self.now.depth place tokens.old) result tokens.new }
    {
        let value = self.try_value(tokens)?;
        Ok(Stmt::Return(place, value))
    }

    #[tactic(auto, unfolding(crate::specs::Read::rest_of_switch))]
    fn rest_of_switch(&self, tokens: &mut Cursor<'_>, place: Place) -> Result<Stmt, ReadError>
        requires { ReadsInner self.now.depth (F.pre self.now.statement) (F.post self.now.statement) }
        ensures { Reads (spec.rest_of_switch self.now.inits self.now.depth place tokens.old) result tokens.new }
    {
        let subject = expr(self.alloc, tokens, self.depth, true)?;
        match self.clauses(tokens) {
            Ok(clauses) => Ok(Stmt::Switch(place, subject, clauses)),
            Err(error) => {
                discard(subject);
                Err(error)
            }
        }
    }

    #[tactic(auto, unfolding(crate::specs::Read::self_init))]
    fn self_init(&self, tokens: &mut Cursor<'_>) -> Result<Stmt, ReadError>
        ensures { Reads (spec.self_init self.now.inits self.now.depth tokens.old) result tokens.new }
    {
        let place = tokens.expect_mark(Terminal::SelfValue)?;
        tokens.expect_mark(Terminal::Dot)?;
        tokens.expect_mark(Terminal::Init)?;
        let arguments = call(self.alloc, tokens, self.depth)?;
        Ok(Stmt::SelfInit(place, arguments))
    }

    #[tactic(auto, unfolding(crate::specs::Read::super_init))]
    fn super_init(&self, tokens: &mut Cursor<'_>) -> Result<Stmt, ReadError>
        ensures { Reads (spec.super_init self.now.inits self.now.depth tokens.old) result tokens.new }
    {
        let place = tokens.expect_mark(Terminal::Super)?;
        tokens.expect_mark(Terminal::Dot)?;
        tokens.expect_mark(Terminal::Init)?;
        let arguments = call(self.alloc, tokens, self.depth)?;
        Ok(Stmt::SuperInit(place, arguments))
    }

    #[tactic(auto, unfolding(crate::specs::Read::rest_of_assignment))]
    fn rest_of_assignment(&self, tokens: &mut Cursor<'_>, target: Expr) -> Result<Stmt, ReadError>
        ensures { Reads (spec.rest_of_assignment self.now.inits self.now.depth target tokens.old) result tokens.new }
    {
        let Some(operator) = operator(tokens, &target) else {
            return Ok(Stmt::Expr(target));
        };
        match expr(self.alloc, tokens, self.depth, true) {
            Ok(value) => Ok(Stmt::Assign(target, operator, value)),
            Err(error) => {
                discard(target);
                Err(error)
            }
        }
    }

    #[tactic(auto, unfolding(crate::specs::Read::action))]
    fn action(&self, tokens: &mut Cursor<'_>) -> Result<Stmt, ReadError>
        ensures { Reads (spec.action self.now.inits self.now.depth tokens.old) result tokens.new }
    {
        let target = expr(self.alloc, tokens, self.depth, true)?;
        self.rest_of_assignment(tokens, target)
    }

    fn action_of(&self, tokens: &mut Cursor<'_>) -> Result<Stmt, ReadError>
        ensures { Reads (spec.action_of self.now.inits self.now.depth self.now.inits tokens.old) result tokens.new }
    {
        if !self.inits {
            return self.action(tokens);
        }
        if starts_init(tokens, Terminal::SelfValue) {
            return self.self_init(tokens);
        }
        if starts_init(tokens, Terminal::Super) {
            return self.super_init(tokens);
        }
        self.action(tokens)
    }

    /// The statements that leave something, and those without a word of their own.
    #[tactic(auto, unfolding(crate::specs::Read::leaving))]
    fn leaving(&self, tokens: &mut Cursor<'_>) -> Result<Stmt, ReadError>
        requires { ReadsInner self.now.depth (F.pre self.now.statement) (F.post self.now.statement) }
        ensures { Reads (spec.leaving self.now.inits self.now.depth tokens.old) result tokens.new }
    {
        if let Some(place) = tokens.mark(Terminal::Return) {
            return self.rest_of_return(tokens, place);
        }
        if let Some(place) = tokens.mark(Terminal::Break) {
            return Ok(Stmt::Break(place));
        }
        if let Some(place) = tokens.mark(Terminal::Continue) {
            return Ok(Stmt::Continue(place));
        }
        match tokens.mark(Terminal::Switch) {
            Some(place) => self.rest_of_switch(tokens, place),
            None => self.action_of(tokens),
        }
    }

    /// A statement.
    #[tactic(auto, unfolding(crate::specs::Read::stmt_of))]
    pub fn statement_here(&self, tokens: &mut Cursor<'_>) -> Result<Stmt, ReadError>
        requires { ReadsInner self.now.depth (F.pre self.now.statement) (F.post self.now.statement) }
        ensures { Reads (spec.stmt_of self.now.inits self.now.depth tokens.old) result tokens.new }
    {
        if let Some((place, introducer)) = introducer(tokens) {
            return self.rest_of_local(tokens, place, introducer);
        }
        if let Some(place) = tokens.mark(Terminal::Underscore) {
            return self.rest_of_discard(tokens, place);
        }
        if let Some(place) = tokens.mark(Terminal::If) {
            return self.rest_of_if(tokens, place);
        }
        match tokens.mark(Terminal::While) {
            Some(place) => self.rest_of_while(tokens, place),
            None => self.leaving(tokens),
        }
    }
}

/// A statement at the front of the tokens, where so much nesting may still open.
pub fn stmt(
    alloc: Global,
    tokens: &mut Cursor<'_>,
    depth: u32,
    inits: bool,
) -> Result<Stmt, ReadError>
    ensures { Reads (read.stmt inits depth tokens.old) result tokens.new }
{
    let statements = Statements {
        alloc,
        depth,
        inits,
        statement: stmt,
    };
    statements.statement_here(tokens)
}

/// A block at the front of the tokens, where so much nesting may still open. Only those of initialisers have the
/// statements of initialisers.
pub fn block(
    alloc: Global,
    tokens: &mut Cursor<'_>,
    depth: u32,
    inits: bool,
) -> Result<Block, ReadError>
    ensures { Reads (read.block inits depth tokens.old) result tokens.new }
{
    let statements = Statements {
        alloc,
        depth,
        inits,
        statement: stmt,
    };
    statements.block(tokens)
}

/// A statement of a client at the front of the tokens, where so much nesting may still open. Only the first may
/// begin with a dot.
pub fn statement(
    alloc: Global,
    tokens: &mut Cursor<'_>,
    depth: u32,
    first: bool,
) -> Result<Stmt, ReadError>
    ensures { Reads (read.statement first depth tokens.old) result tokens.new }
{
    if first {
        stmt(alloc, tokens, depth, false)
    } else {
        later_statement(alloc, tokens, depth)
    }
}

#[tactic(auto, unfolding(crate::specs::Read::later))]
fn later_statement(alloc: Global, tokens: &mut Cursor<'_>, depth: u32) -> Result<Stmt, ReadError>
    ensures { Reads (read.statement false depth tokens.old) result tokens.new }
{
    expect_later(tokens)?;
    stmt(alloc, tokens, depth, false)
}
