//! Reads expressions, by their levels.

ghost use Rattle.std.specs.Prelude.{◌≡◌, ◌<◌, ◌∷◌, [], ℕ, List, length, IfOk};
ghost use Rattle.evo_combinators.specs.Reader.{Reads, many};
ghost use Rattle.evo_tree.specs.Expressions.{chain, members, one_operand};
ghost use Rattle.evo_tree.specs.Pieces.{mark};
ghost use Rattle.evo_tree.specs.declared.terminal.Terminal.TheVariants.{Comma, Dot};
ghost use Rattle.evo_parse_expr.specs.Read.{chain_of};
ghost use Rattle.evo_parse_expr.specs.AtDepth as spec;
ghost use Rattle.evo_parse_expr.specs.ReadsInner.{ReadsInner, expr_of};

use crate::cursor::Cursor;
use crate::lexeme::Level;
use crate::refusal::{discard, too_deep};
use evo_base::Place;
use evo_combinators::ReadError;
use evo_tree::{Argument, Expr, Identifier, InfixOperator, Member, Operand, Terminal};
use sqlite_items::{Boxed, Items};
use std::alloc::{AllocError, Global};

fn alone<T: Drop>(alloc: Global, item: T) -> Result<Items<T>, AllocError>
    ensures { IfOk result (λ all. all ≡ item ∷ []) }
{
    let mut all = Items::new(alloc);
    all.push(item)?;
    Ok(all)
}

fn chained(alloc: Global, first: Expr, rest: Items<Operand>) -> Result<Expr, AllocError>
    ensures { IfOk result (λ x. x ≡ chain first rest) }
{
    if rest.is_empty() {
        Ok(first)
    } else {
        Ok(Expr::Chain(Boxed::new(alloc, first)?, rest))
    }
}

// The chain of two operands.
fn paired(
    alloc: Global,
    first: Expr,
    operator: InfixOperator,
    operand: Expr,
) -> Result<Expr, AllocError>
    ensures { IfOk result (λ x. x ≡ chain first (one_operand operator operand)) }
{
    match alone(alloc, (operator, operand)) {
        Ok(rest) => chained(alloc, first, rest),
        Err(error) => {
            discard(first);
            Err(error)
        }
    }
}

fn with_members(alloc: Global, first: Expr, rest: Items<Member>) -> Result<Expr, AllocError>
    ensures { IfOk result (λ x. x ≡ members first rest) }
{
    if rest.is_empty() {
        Ok(first)
    } else {
        Ok(Expr::Members(Boxed::new(alloc, first)?, rest))
    }
}

fn listed(
    alloc: Global,
    first: Argument,
    more: Items<Argument>,
) -> Result<Items<Argument>, AllocError>
    ensures { IfOk result (λ all. all ≡ first ∷ more) }
{
    let mut all = Items::new(alloc);
    all.push(first)?;
    all.append(more)?;
    Ok(all)
}

/// The rules of one nesting. They take the reader of the next as a parameter, so that each is proved by itself.
#[derive(Clone, Copy)]
pub struct Grammar<F> {
    alloc: Global,
    /// How much nesting may still open.
    depth: u32,
    expr: F,
}

impl<F: Fn(Global, &mut Cursor<'_>, u32, bool) -> Result<Expr, ReadError>> Grammar<F> {
    /// An expression in parentheses.
    fn inner(&self, tokens: &mut Cursor<'_>) -> Result<Expr, ReadError>
        requires nests { ReadsInner self.now.depth (F.pre self.now.expr) (F.post self.now.expr) }
        requires open { 0 < self.now.depth }
        ensures { Reads (spec.inner_of self.now.depth tokens.old) result tokens.new }
    {
        (self.expr)(self.alloc, tokens, self.depth - 1, true)
    }

    /// What follows a sign.
    fn under(&self, tokens: &mut Cursor<'_>) -> Result<Expr, ReadError>
        requires nests { ReadsInner self.now.depth (F.pre self.now.expr) (F.post self.now.expr) }
        requires open { 0 < self.now.depth }
        ensures { Reads (spec.operand_of self.now.depth tokens.old) result tokens.new }
    {
        (self.expr)(self.alloc, tokens, self.depth - 1, false)
    }

    #[tactic(auto, unfolding(crate::specs::Read::labelled))]
    fn labelled(&self, tokens: &mut Cursor<'_>) -> Result<Argument, ReadError>
        requires nests { ReadsInner self.now.depth (F.pre self.now.expr) (F.post self.now.expr) }
        requires open { 0 < self.now.depth }
        ensures { Reads (spec.labelled_at self.now.depth tokens.old) result tokens.new }
    {
        let label = tokens.expect_identifier(self.alloc)?;
        tokens.expect_mark(Terminal::Colon)?;
        let value = self.inner(tokens)?;
        Ok((Some(label), value))
    }

    fn argument(&self, tokens: &mut Cursor<'_>) -> Result<Argument, ReadError>
        requires nests { ReadsInner self.now.depth (F.pre self.now.expr) (F.post self.now.expr) }
        requires open { 0 < self.now.depth }
        ensures { Reads (spec.argument_at self.now.depth tokens.old) result tokens.new }
    {
        if tokens.starts_named(Terminal::Colon) {
            return self.labelled(tokens);
        }
        let value = self.inner(tokens)?;
        Ok((None, value))
    }

    fn further_arguments(&self, tokens: &mut Cursor<'_>) -> Result<Items<Argument>, ReadError>
        requires nests { ReadsInner self.now.depth (F.pre self.now.expr) (F.post self.now.expr) }
        requires open { 0 < self.now.depth }
        ensures { Reads (many (mark Comma) (spec.argument_reader self.now.depth) tokens.old) result tokens.new }
    {
        let mut found = Items::new(self.alloc);
        for _turn in 0..tokens.left() {
            let Some(_) = tokens.mark(Terminal::Comma) else {
                return Ok(found);
            };
            found.push(self.argument(tokens)?)?;
        }
        Ok(found)
    }

    #[tactic(auto, unfolding(crate::specs::Read::listed_arguments))]
    fn listed_arguments(&self, tokens: &mut Cursor<'_>) -> Result<Items<Argument>, ReadError>
        requires nests { ReadsInner self.now.depth (F.pre self.now.expr) (F.post self.now.expr) }
        requires open { 0 < self.now.depth }
        ensures { Reads (spec.listed_at self.now.depth tokens.old) result tokens.new }
    {
        let first = self.argument(tokens)?;
        let more = self.further_arguments(tokens)?;
        Ok(listed(self.alloc, first, more)?)
    }

    #[tactic(auto, unfolding(crate::specs::Read::closed_arguments))]
    fn closed_arguments(&self, tokens: &mut Cursor<'_>) -> Result<Items<Argument>, ReadError>
        requires nests { ReadsInner self.now.depth (F.pre self.now.expr) (F.post self.now.expr) }
        requires open { 0 < self.now.depth }
        ensures { Reads (spec.closed_at self.now.depth tokens.old) result tokens.new }
    {
        let found = self.listed_arguments(tokens)?;
        tokens.expect_mark(Terminal::CloseParenthesis)?;
        Ok(found)
    }

    #[tactic(auto, unfolding(crate::specs::Read::rest_of_arguments))]
    fn rest_of_arguments(&self, tokens: &mut Cursor<'_>) -> Result<Items<Argument>, ReadError>
        requires nests { ReadsInner self.now.depth (F.pre self.now.expr) (F.post self.now.expr) }
        requires open { 0 < self.now.depth }
        ensures { Reads (spec.rest_of_arguments_at self.now.depth tokens.old) result tokens.new }
    {
        match tokens.mark(Terminal::CloseParenthesis) {
            Some(_) => Ok(Items::new(self.alloc)),
            None => self.closed_arguments(tokens),
        }
    }

    #[tactic(auto, unfolding(crate::specs::Read::arguments))]
    fn arguments(&self, tokens: &mut Cursor<'_>) -> Result<Option<Items<Argument>>, ReadError>
        requires { ReadsInner self.now.depth (F.pre self.now.expr) (F.post self.now.expr) }
        ensures { Reads (spec.arguments_at self.now.depth tokens.old) result tokens.new }
    {
        let left = tokens.left();
        let Some(_) = tokens.call() else {
            return Ok(None);
        };
        if self.depth == 0 {
            return Err(too_deep(left));
        }
        Ok(Some(self.rest_of_arguments(tokens)?))
    }

    #[tactic(auto, unfolding(crate::specs::Read::called))]
    fn called(&self, tokens: &mut Cursor<'_>) -> Result<Items<Argument>, ReadError>
        requires { ReadsInner self.now.depth (F.pre self.now.expr) (F.post self.now.expr) }
        ensures { Reads (spec.called_at self.now.depth tokens.old) result tokens.new }
    {
        let left = tokens.left();
        let Some(_) = tokens.call() else {
            return Err(tokens.refused());
        };
        if self.depth == 0 {
            return Err(too_deep(left));
        }
        self.rest_of_arguments(tokens)
    }

    #[tactic(auto, unfolding(crate::specs::Read::member))]
    fn member(&self, tokens: &mut Cursor<'_>) -> Result<Member, ReadError>
        requires { ReadsInner self.now.depth (F.pre self.now.expr) (F.post self.now.expr) }
        ensures { Reads (spec.member_at self.now.depth tokens.old) result tokens.new }
    {
        let name = tokens.expect_identifier(self.alloc)?;
        let arguments = self.arguments(tokens)?;
        Ok((name, arguments))
    }

    #[tactic(auto, unfolding(crate::specs::Read::rest_of_group))]
    fn rest_of_group(&self, tokens: &mut Cursor<'_>, place: Place) -> Result<Expr, ReadError>
        requires nests { ReadsInner self.now.depth (F.pre self.now.expr) (F.post self.now.expr) }
        requires open { 0 < self.now.depth }
        ensures { Reads (spec.rest_of_group_at self.now.depth place tokens.old) result tokens.new }
    {
        let inner = self.inner(tokens)?;
        match tokens.expect_mark(Terminal::CloseParenthesis) {
            Ok(_) => Ok(Expr::Parenthesised(place, Boxed::new(self.alloc, inner)?)),
            Err(error) => {
                discard(inner);
                Err(error)
            }
        }
    }

    #[tactic(auto, unfolding(crate::specs::Read::rest_of_super))]
    fn rest_of_super(&self, tokens: &mut Cursor<'_>, place: Place) -> Result<Expr, ReadError>
        requires { ReadsInner self.now.depth (F.pre self.now.expr) (F.post self.now.expr) }
        ensures { Reads (spec.rest_of_super_at self.now.depth place tokens.old) result tokens.new }
    {
        tokens.expect_mark(Terminal::Dot)?;
        let name = tokens.expect_identifier(self.alloc)?;
        let arguments = self.called(tokens)?;
        Ok(Expr::Super(place, name, arguments))
    }

    #[tactic(auto, unfolding(crate::specs::Read::magnitude))]
    fn magnitude(&self, tokens: &mut Cursor<'_>, place: Place) -> Result<Expr, ReadError>
        ensures { Reads (spec.magnitude_at self.now.depth place tokens.old) result tokens.new }
    {
        let (_, value) = tokens.expect_integer(0x8000_0000_0000_0000)?;
        Ok(Expr::Negative(place, value))
    }

    #[tactic(auto, unfolding(crate::specs::Read::named))]
    fn named(&self, tokens: &mut Cursor<'_>, name: Identifier) -> Result<Expr, ReadError>
        requires { ReadsInner self.now.depth (F.pre self.now.expr) (F.post self.now.expr) }
        ensures { Reads (spec.named_at self.now.depth name tokens.old) result tokens.new }
    {
        let arguments = self.arguments(tokens)?;
        Ok(Expr::Name(name, arguments))
    }

    #[tactic(auto, unfolding(crate::specs::Read::implicit))]
    fn implicit(&self, tokens: &mut Cursor<'_>, place: Place) -> Result<Expr, ReadError>
        requires { ReadsInner self.now.depth (F.pre self.now.expr) (F.post self.now.expr) }
        ensures { Reads (spec.implicit_at self.now.depth place tokens.old) result tokens.new }
    {
        let (name, arguments) = self.member(tokens)?;
        Ok(Expr::ImplicitMember(place, name, arguments))
    }

    #[tactic(auto, unfolding(crate::specs::Read::later_primary))]
    fn later_primary(&self, tokens: &mut Cursor<'_>) -> Result<Expr, ReadError>
        requires { ReadsInner self.now.depth (F.pre self.now.expr) (F.post self.now.expr) }
        ensures { Reads (spec.later_primary_at self.now.depth tokens.old) result tokens.new }
    {
        if let Some(place) = tokens.mark(Terminal::True) {
            return Ok(Expr::Boolean(place, true));
        }
        if let Some(place) = tokens.mark(Terminal::False) {
            return Ok(Expr::Boolean(place, false));
        }
        if let Some(place) = tokens.negative() {
            return self.magnitude(tokens, place);
        }
        let left = tokens.left();
        if let Some(place) = tokens.mark(Terminal::OpenParenthesis) {
            if self.depth == 0 {
                return Err(too_deep(left));
            }
            return self.rest_of_group(tokens, place);
        }
        match tokens.mark(Terminal::Dot) {
            Some(place) => self.implicit(tokens, place),
            None => Err(tokens.refused()),
        }
    }

    #[tactic(auto, unfolding(crate::specs::Read::primary))]
    fn primary(&self, tokens: &mut Cursor<'_>) -> Result<Expr, ReadError>
        requires { ReadsInner self.now.depth (F.pre self.now.expr) (F.post self.now.expr) }
        ensures { Reads (spec.primary_at self.now.depth tokens.old) result tokens.new }
    {
        if let Some(name) = tokens.identifier(self.alloc)? {
            return self.named(tokens, name);
        }
        if let Some((place, value)) = tokens.integer(0x7fff_ffff_ffff_ffff) {
            return Ok(Expr::Integer(place, value));
        }
        if let Some((place, value)) = tokens.string(self.alloc)? {
            return Ok(Expr::String(place, value));
        }
        if let Some(place) = tokens.mark(Terminal::SelfValue) {
            return Ok(Expr::SelfValue(place));
        }
        if let Some(place) = tokens.mark(Terminal::SelfType) {
            return Ok(Expr::SelfType(place));
        }
        match tokens.mark(Terminal::Super) {
            Some(place) => self.rest_of_super(tokens, place),
            None => self.later_primary(tokens),
        }
    }

    fn dotted(&self, tokens: &mut Cursor<'_>) -> Result<Items<Member>, ReadError>
        requires { ReadsInner self.now.depth (F.pre self.now.expr) (F.post self.now.expr) }
        ensures { Reads (many (mark Dot) (spec.member_reader self.now.depth) tokens.old) result tokens.new }
    {
        let mut found = Items::new(self.alloc);
        for _turn in 0..tokens.left() {
            let Some(_) = tokens.mark(Terminal::Dot) else {
                return Ok(found);
            };
            found.push(self.member(tokens)?)?;
        }
        Ok(found)
    }

    #[tactic(auto, unfolding(crate::specs::Read::links))]
    fn links(&self, tokens: &mut Cursor<'_>, first: Expr) -> Result<Expr, ReadError>
        requires { ReadsInner self.now.depth (F.pre self.now.expr) (F.post self.now.expr) }
        ensures { Reads (spec.links_at self.now.depth first tokens.old) result tokens.new }
    {
        match self.dotted(tokens) {
            Ok(members) => Ok(with_members(self.alloc, first, members)?),
            Err(error) => {
                discard(first);
                Err(error)
            }
        }
    }

    #[tactic(auto, unfolding(crate::specs::Read::post))]
    fn post(&self, tokens: &mut Cursor<'_>) -> Result<Expr, ReadError>
        requires { ReadsInner self.now.depth (F.pre self.now.expr) (F.post self.now.expr) }
        ensures { Reads (spec.post_at self.now.depth tokens.old) result tokens.new }
    {
        let first = self.primary(tokens)?;
        self.links(tokens, first)
    }

    #[tactic(auto, unfolding(crate::specs::Read::unary_of))]
    fn unary(&self, tokens: &mut Cursor<'_>) -> Result<Expr, ReadError>
        requires { ReadsInner self.now.depth (F.pre self.now.expr) (F.post self.now.expr) }
        ensures { Reads (spec.unary_at self.now.depth tokens.old) result tokens.new }
    {
        let left = tokens.left();
        let Some((place, operator)) = tokens.sign() else {
            return self.post(tokens);
        };
        if self.depth == 0 {
            return Err(too_deep(left));
        }
        let operand = self.under(tokens)?;
        Ok(Expr::Prefix(place, operator, Boxed::new(self.alloc, operand)?))
    }

    #[cycle(levels)]
    fn operand(&self, tokens: &mut Cursor<'_>, level: Level) -> Result<Expr, ReadError>
        requires { ReadsInner self.now.depth (F.pre self.now.expr) (F.post self.now.expr) }
        ensures { Reads (spec.operands_of (spec.unary_at self.now.depth) level tokens.old) result tokens.new }
    {
        match level {
            Level::Disjunction => self.level(tokens, Level::Conjunction),
            Level::Conjunction => self.level(tokens, Level::Comparison),
            Level::Comparison => self.level(tokens, Level::Addition),
            Level::Addition => self.level(tokens, Level::Multiplication),
            Level::Multiplication => self.unary(tokens),
        }
    }

    #[cycle(levels)]
    fn turns(&self, tokens: &mut Cursor<'_>, level: Level) -> Result<Items<Operand>, ReadError>
        requires { ReadsInner self.now.depth (F.pre self.now.expr) (F.post self.now.expr) }
        ensures { Reads (many (spec.infix_of level) (spec.turn_reader (spec.operands_of (spec.unary_at self.now.depth) level)) tokens.old) result tokens.new }
    {
        let mut found = Items::new(self.alloc);
        for _turn in 0..tokens.left() {
            let Some(operator) = tokens.infix(level) else {
                return Ok(found);
            };
            let operand = self.operand(tokens, level)?;
            found.push((operator, operand))?;
        }
        Ok(found)
    }

    #[cycle(levels)]
    #[tactic(auto, unfolding(crate::specs::Read::chain_of))]
    fn chain(&self, tokens: &mut Cursor<'_>, level: Level) -> Result<Expr, ReadError>
        requires { ReadsInner self.now.depth (F.pre self.now.expr) (F.post self.now.expr) }
        ensures { Reads (chain_of (spec.infix_of level) (spec.operands_of (spec.unary_at self.now.depth) level) tokens.old) result tokens.new }
    {
        let first = self.operand(tokens, level)?;
        match self.turns(tokens, level) {
            Ok(rest) => Ok(chained(self.alloc, first, rest)?),
            Err(error) => {
                discard(first);
                Err(error)
            }
        }
    }

    #[cycle(levels)]
    #[tactic(auto, unfolding(crate::specs::Read::pair_of))]
    fn pair(&self, tokens: &mut Cursor<'_>) -> Result<Expr, ReadError>
        requires { ReadsInner self.now.depth (F.pre self.now.expr) (F.post self.now.expr) }
        ensures { Reads (spec.comparison_level (spec.unary_at self.now.depth) tokens.old) result tokens.new }
    {
        let first = self.operand(tokens, Level::Comparison)?;
        let Some(operator) = tokens.infix(Level::Comparison) else {
            return Ok(first);
        };
        match self.operand(tokens, Level::Comparison) {
            Ok(operand) => Ok(paired(self.alloc, first, operator, operand)?),
            Err(error) => {
                discard(first);
                Err(error)
            }
        }
    }

    #[cycle(levels)]
    fn level(&self, tokens: &mut Cursor<'_>, level: Level) -> Result<Expr, ReadError>
        requires { ReadsInner self.now.depth (F.pre self.now.expr) (F.post self.now.expr) }
        ensures { Reads (spec.level_of (spec.unary_at self.now.depth) level tokens.old) result tokens.new }
    {
        match level {
            Level::Disjunction => self.chain(tokens, Level::Disjunction),
            Level::Conjunction => self.chain(tokens, Level::Conjunction),
            Level::Comparison => self.pair(tokens),
            Level::Addition => self.chain(tokens, Level::Addition),
            Level::Multiplication => self.chain(tokens, Level::Multiplication),
        }
    }
}

/// A whole expression at the front of the tokens, or what follows a sign, where so much nesting may still open.
pub fn expr(
    alloc: Global,
    tokens: &mut Cursor<'_>,
    depth: u32,
    whole: bool,
) -> Result<Expr, ReadError>
    ensures { Reads (expr_of depth whole tokens.old) result tokens.new }
{
    let grammar = Grammar { alloc, depth, expr };
    if whole {
        grammar.level(tokens, Level::Disjunction)
    } else {
        grammar.unary(tokens)
    }
}

/// The arguments of a call at the front of the tokens, where so much nesting may still open.
pub fn call(
    alloc: Global,
    tokens: &mut Cursor<'_>,
    depth: u32,
) -> Result<Items<Argument>, ReadError>
    ensures { Reads (spec.called_at depth tokens.old) result tokens.new }
{
    let grammar = Grammar { alloc, depth, expr };
    grammar.called(tokens)
}
