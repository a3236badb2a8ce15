//! Reads what a clause takes.

ghost use Rattle.std.specs.Prelude.{◌≡◌, ◌∷◌, ℕ, List};
ghost use Rattle.evo_combinators.specs.Reader.{Reads, many};
ghost use Rattle.evo_tree.specs.Pieces.{mark};
ghost use Rattle.evo_tree.specs.declared.terminal.Terminal.TheVariants.{Comma};
ghost use Rattle.evo_parse_expr.specs.Read.{after};
ghost use Rattle.evo_parse_stmt.specs.Read as spec;

use crate::matching::pattern;
use evo_base::{List, Place};
use evo_combinators::ReadError;
use evo_parse_expr::Cursor;
use evo_tree::{ClauseLabel, Pattern, Terminal};
use std::alloc::Global;

// The first one and those behind commas.
fn further_patterns(
    alloc: Global,
    tokens: &mut Cursor<'_>,
    depth: u32,
    first: Pattern,
) -> Result<List<Pattern>, ReadError>
    ensures { Reads (after first (many (mark Comma) (λ _. spec.pattern depth)) tokens.old) result tokens.new }
{
    let mut found = Vec::new(alloc);
    found.push(first)?;
    for _turn in 0..tokens.left() {
        let Some(_) = tokens.mark(Terminal::Comma) else {
            return Ok(List::from_vec(found));
        };
        found.push(pattern(alloc, tokens, depth)?)?;
    }
    Ok(List::from_vec(found))
}

#[tactic(auto, unfolding(crate::specs::Read::patterns))]
fn patterns(alloc: Global, tokens: &mut Cursor<'_>, depth: u32) -> Result<List<Pattern>, ReadError>
    ensures { Reads (spec.patterns depth tokens.old) result tokens.new }
{
    let first = pattern(alloc, tokens, depth)?;
    further_patterns(alloc, tokens, depth, first)
}

#[tactic(auto, unfolding(crate::specs::Read::unknown))]
fn unknown(tokens: &mut Cursor<'_>, place: Place) -> Result<(Place, ClauseLabel), ReadError>
    ensures { Reads (spec.unknown place tokens.old) result tokens.new }
{
    tokens.expect_word(b"unknown")?;
    tokens.expect_mark(Terminal::Default)?;
    Ok((place, ClauseLabel::UnknownDefault))
}

/// What a clause takes, at the front of the tokens, where so much nesting may still open.
#[tactic(auto, unfolding(crate::specs::Read::label))]
pub fn label(
    alloc: Global,
    tokens: &mut Cursor<'_>,
    depth: u32,
) -> Result<(Place, ClauseLabel), ReadError>
    ensures { Reads (spec.label depth tokens.old) result tokens.new }
{
    if let Some(place) = tokens.mark(Terminal::Case) {
        let found = patterns(alloc, tokens, depth)?;
        return Ok((place, ClauseLabel::Case(found)));
    }
    if let Some(place) = tokens.mark(Terminal::Default) {
        return Ok((place, ClauseLabel::Default));
    }
    let place = tokens.expect_mark(Terminal::At)?;
    unknown(tokens, place)
}
