//! Reads several statements, blocks and clauses.

ghost use Rattle.std.specs.Prelude.{◌≡◌, ◌<◌, ◌∷◌, ℕ, List, IfOk, false};
ghost use Rattle.evo_combinators.specs.Attempt.{attempt};
ghost use Rattle.evo_combinators.specs.Reader.{Reads};
ghost use Rattle.evo_tree.specs.Statements as tree;
ghost use Rattle.evo_tree.specs.declared.statement.Clause.{out-Clause};
ghost use Rattle.evo_parse_stmt.specs.ReadsInner.{ReadsInner};
ghost use Rattle.evo_parse_stmt.specs.Read.{inner_of};
ghost use Rattle.evo_parse_stmt.specs.AtDepth as spec;

use crate::label::label;
use crate::lead::{expect_below, expect_later};
use evo_base::Place;
use evo_combinators::ReadError;
use evo_parse_expr::{Cursor, is_refusal, too_deep};
use evo_tree::{Block, Clause, ClauseLabel, Stmt, Terminal};
use sqlite_items::Items;
use std::alloc::{AllocError, Global};

// The first one and those behind it.
fn joined<T: Drop>(alloc: Global, first: T, more: Items<T>) -> Result<Items<T>, AllocError>
    ensures { IfOk result (λ all. all ≡ first ∷ more) }
{
    let mut all = Items::new(alloc);
    all.push(first)?;
    all.append(more)?;
    Ok(all)
}

// Whether a clause takes all that is left.
fn takes_rest(clause: &Clause) -> bool
    ensures { result ≡ tree.takes_rest (out-Clause clause.now).label }
{
    match clause.label {
        ClauseLabel::Case(_) => false,
        ClauseLabel::Default => true,
        ClauseLabel::UnknownDefault => true,
    }
}

/// The rules of one nesting. They take the reader of a statement with less as a parameter, so that each is proved by itself.
#[derive(Clone, Copy)]
pub struct Statements<F> {
    pub alloc: Global,
    /// How much nesting may still open.
    pub depth: u32,
    /// Whether the statements of initialisers may stand.
    pub inits: bool,
    pub statement: F,
}

impl<F: Fn(Global, &mut Cursor<'_>, u32, bool) -> Result<Stmt, ReadError>> Statements<F> {
    /// A statement in braces.
    fn inner(&self, tokens: &mut Cursor<'_>) -> Result<Stmt, ReadError>
        requires nests { ReadsInner self.now.depth (F.pre self.now.statement) (F.post self.now.statement) }
        requires open { 0 < self.now.depth }
        ensures { Reads (inner_of self.now.inits self.now.depth tokens.old) result tokens.new }
    {
        (self.statement)(self.alloc, tokens, self.depth - 1, self.inits)
    }

    #[tactic(auto, unfolding(crate::specs::Read::later))]
    fn later(&self, tokens: &mut Cursor<'_>) -> Result<Stmt, ReadError>
        requires nests { ReadsInner self.now.depth (F.pre self.now.statement) (F.post self.now.statement) }
        requires open { 0 < self.now.depth }
        ensures { Reads (spec.later self.now.inits self.now.depth tokens.old) result tokens.new }
    {
        expect_later(tokens)?;
        self.inner(tokens)
    }

    #[tactic(auto, unfolding(crate::specs::Read::further))]
    fn further(&self, tokens: &mut Cursor<'_>) -> Result<Stmt, ReadError>
        requires nests { ReadsInner self.now.depth (F.pre self.now.statement) (F.post self.now.statement) }
        requires open { 0 < self.now.depth }
        ensures { Reads (spec.further self.now.inits self.now.depth tokens.old) result tokens.new }
    {
        if let Some(_) = tokens.mark(Terminal::Semicolon) {
            return self.later(tokens);
        }
        expect_below(tokens)?;
        self.later(tokens)
    }

    fn statement_at(&self, tokens: &mut Cursor<'_>, first: bool) -> Result<Stmt, ReadError>
        requires nests { ReadsInner self.now.depth (F.pre self.now.statement) (F.post self.now.statement) }
        requires open { 0 < self.now.depth }
        ensures { Reads (spec.statement_at self.now.inits self.now.depth first tokens.old) result tokens.new }
    {
        if first {
            self.inner(tokens)
        } else {
            self.further(tokens)
        }
    }

    fn try_statement(&self, tokens: &mut Cursor<'_>, first: bool) -> Result<Option<Stmt>, ReadError>
        requires nests { ReadsInner self.now.depth (F.pre self.now.statement) (F.post self.now.statement) }
        requires open { 0 < self.now.depth }
        ensures { Reads (attempt (spec.statement_at self.now.inits self.now.depth first) tokens.old) result tokens.new }
    {
        let start = tokens.copy();
        match self.statement_at(tokens, first) {
            Ok(found) => Ok(Some(found)),
            Err(error) => {
                if !is_refusal(error, start.left()) {
                    return Err(error);
                }
                *tokens = start;
                Ok(None)
            }
        }
    }

    /// Statements, of which the first is still to come or not.
    fn statements(&self, tokens: &mut Cursor<'_>, first: bool) -> Result<Items<Stmt>, ReadError>
        requires nests { ReadsInner self.now.depth (F.pre self.now.statement) (F.post self.now.statement) }
        requires open { 0 < self.now.depth }
        ensures { Reads (spec.statements self.now.inits self.now.depth first tokens.old) result tokens.new }
    {
        let mut found = Items::new(self.alloc);
        let mut early = first;
        for _turn in 0..tokens.left() {
            let Some(statement) = self.try_statement(tokens, early)? else {
                return Ok(found);
            };
            found.push(statement)?;
            early = false;
        }
        Ok(found)
    }

    #[tactic(auto, unfolding(crate::specs::Read::some_statements))]
    fn some_statements(&self, tokens: &mut Cursor<'_>) -> Result<Items<Stmt>, ReadError>
        requires nests { ReadsInner self.now.depth (F.pre self.now.statement) (F.post self.now.statement) }
        requires open { 0 < self.now.depth }
        ensures { Reads (spec.some_statements self.now.inits self.now.depth tokens.old) result tokens.new }
    {
        let mut found = Items::new(self.alloc);
        found.push(self.inner(tokens)?)?;
        found.append(self.statements(tokens, false)?)?;
        Ok(found)
    }

    #[tactic(auto, unfolding(crate::specs::Read::rest_of_block))]
    fn rest_of_block(&self, tokens: &mut Cursor<'_>, place: Place) -> Result<Block, ReadError>
        requires nests { ReadsInner self.now.depth (F.pre self.now.statement) (F.post self.now.statement) }
        requires open { 0 < self.now.depth }
        ensures { Reads (spec.rest_of_block self.now.inits self.now.depth place tokens.old) result tokens.new }
    {
        let statements = self.statements(tokens, true)?;
        let end = tokens.expect_mark(Terminal::CloseBrace)?;
        Ok(Block {
            place,
            statements,
            end,
        })
    }

    /// A block.
    #[tactic(auto, unfolding(crate::specs::Read::block_of))]
    pub fn block(&self, tokens: &mut Cursor<'_>) -> Result<Block, ReadError>
        requires { ReadsInner self.now.depth (F.pre self.now.statement) (F.post self.now.statement) }
        ensures { Reads (spec.block self.now.inits self.now.depth tokens.old) result tokens.new }
    {
        let left = tokens.left();
        let Some(place) = tokens.mark(Terminal::OpenBrace) else {
            return Err(tokens.refused());
        };
        if self.depth == 0 {
            return Err(too_deep(left));
        }
        self.rest_of_block(tokens, place)
    }

    fn label(&self, tokens: &mut Cursor<'_>) -> Result<(Place, ClauseLabel), ReadError>
        requires { 0 < self.now.depth }
        ensures { Reads (spec.label self.now.inits self.now.depth tokens.old) result tokens.new }
    {
        label(self.alloc, tokens, self.depth - 1)
    }

    #[tactic(auto, unfolding(crate::specs::Read::clause))]
    fn clause(&self, tokens: &mut Cursor<'_>) -> Result<Clause, ReadError>
        requires nests { ReadsInner self.now.depth (F.pre self.now.statement) (F.post self.now.statement) }
        requires open { 0 < self.now.depth }
        ensures { Reads (spec.clause self.now.inits self.now.depth tokens.old) result tokens.new }
    {
        let (place, label) = self.label(tokens)?;
        tokens.expect_mark(Terminal::Colon)?;
        let statements = self.some_statements(tokens)?;
        Ok(Clause {
            place,
            label,
            statements,
        })
    }

    fn clause_at(&self, tokens: &mut Cursor<'_>, ended: bool) -> Result<Clause, ReadError>
        requires nests { ReadsInner self.now.depth (F.pre self.now.statement) (F.post self.now.statement) }
        requires open { 0 < self.now.depth }
        ensures { Reads (spec.clause_at self.now.inits self.now.depth ended tokens.old) result tokens.new }
    {
        if ended {
            Err(tokens.refused())
        } else {
            self.clause(tokens)
        }
    }

    fn try_clause(&self, tokens: &mut Cursor<'_>, ended: bool) -> Result<Option<Clause>, ReadError>
        requires nests { ReadsInner self.now.depth (F.pre self.now.statement) (F.post self.now.statement) }
        requires open { 0 < self.now.depth }
        ensures { Reads (attempt (spec.clause_at self.now.inits self.now.depth ended) tokens.old) result tokens.new }
    {
        let start = tokens.copy();
        match self.clause_at(tokens, ended) {
            Ok(found) => Ok(Some(found)),
            Err(error) => {
                if !is_refusal(error, start.left()) {
                    return Err(error);
                }
                *tokens = start;
                Ok(None)
            }
        }
    }

    /// Clauses, unless one before them took all that is left.
    fn further_clauses(
        &self,
        tokens: &mut Cursor<'_>,
        before: bool,
    ) -> Result<Items<Clause>, ReadError>
        requires nests { ReadsInner self.now.depth (F.pre self.now.statement) (F.post self.now.statement) }
        requires open { 0 < self.now.depth }
        ensures { Reads (spec.further_clauses self.now.inits self.now.depth before tokens.old) result tokens.new }
    {
        let mut found = Items::new(self.alloc);
        let mut ended = before;
        for _turn in 0..tokens.left() {
            let Some(clause) = self.try_clause(tokens, ended)? else {
                return Ok(found);
            };
            ended = takes_rest(&clause);
            found.push(clause)?;
        }
        Ok(found)
    }

    fn clauses_behind(
        &self,
        tokens: &mut Cursor<'_>,
        first: &Clause,
    ) -> Result<Items<Clause>, ReadError>
        requires nests { ReadsInner self.now.depth (F.pre self.now.statement) (F.post self.now.statement) }
        requires open { 0 < self.now.depth }
        ensures { Reads (spec.further_clauses self.now.inits self.now.depth (tree.is_last_clause false first.now) tokens.old) result tokens.new }
    {
        self.further_clauses(tokens, takes_rest(first))
    }

    #[tactic(auto, unfolding(crate::specs::Read::rest_of_clauses))]
    fn rest_of_clauses(&self, tokens: &mut Cursor<'_>) -> Result<Items<Clause>, ReadError>
        requires nests { ReadsInner self.now.depth (F.pre self.now.statement) (F.post self.now.statement) }
        requires open { 0 < self.now.depth }
        ensures { Reads (spec.rest_of_clauses self.now.inits self.now.depth tokens.old) result tokens.new }
    {
        let first = self.clause(tokens)?;
        let more = self.clauses_behind(tokens, &first)?;
        tokens.expect_mark(Terminal::CloseBrace)?;
        Ok(joined(self.alloc, first, more)?)
    }

    /// The clauses of a `switch`, in braces.
    #[tactic(auto, unfolding(crate::specs::Read::clauses_of))]
    pub fn clauses(&self, tokens: &mut Cursor<'_>) -> Result<Items<Clause>, ReadError>
        requires { ReadsInner self.now.depth (F.pre self.now.statement) (F.post self.now.statement) }
        ensures { Reads (spec.clauses self.now.inits self.now.depth tokens.old) result tokens.new }
    {
        let left = tokens.left();
        let Some(_) = tokens.mark(Terminal::OpenBrace) else {
            return Err(tokens.refused());
        };
        if self.depth == 0 {
            return Err(too_deep(left));
        }
        self.rest_of_clauses(tokens)
    }
}
