//! Properties and their accessors.

ghost use Rattle.std.specs.Prelude.{◌≡◌, ◌∷◌, [], ◌<◌, ℕ, List, IfOk};
ghost use Rattle.evo_combinators.specs.Reader.{Reads};
ghost use Rattle.evo_tree.specs.Declarations as grammar;
ghost use Rattle.evo_parse_decl.specs.Read as spec;
ghost use Rattle.evo_parse_decl.specs.Closed.{block_at};

use crate::block::inner_block;
use evo_combinators::ReadError;
use evo_parse_expr::{Cursor, Lexeme, too_deep};
use evo_parse_stmt::block;
use evo_tree::{Accessors, Block, Terminal};
use std::alloc::Global;

// What stands behind `get` in a list of accessors.
fn goes_on_get(token: &Lexeme<'_>) -> bool
    ensures { result ≡ grammar.goes_on_get token.now }
{
    token.is(Terminal::OpenBrace)
        || token.is(Terminal::Semicolon)
        || token.is(Terminal::CloseBrace)
        || token.is_word(b"set")
}

// Whether braces with these tokens are a list of accessors.
fn begins_accessors(tokens: &Cursor<'_>) -> bool
    ensures { result ≡ grammar.begins_accessors tokens.now }
{
    let Some((brace, behind)) = tokens.next() else {
        return false;
    };
    let Some((get, further)) = behind.next() else {
        return false;
    };
    let Some((last, _)) = further.next() else {
        return false;
    };
    brace.is(Terminal::OpenBrace) && get.is_word(b"get") && goes_on_get(last)
}

// What stands behind `get set`.
fn rest_of_set(tokens: &mut Cursor<'_>) -> Result<Accessors, ReadError>
    ensures { Reads (spec.closed Accessors.GetSet tokens.old) result tokens.new }
{
    tokens.expect_mark(Terminal::CloseBrace)?;
    Ok(Accessors::GetSet)
}

// What stands behind `get` alone.
fn rest_of_get(tokens: &mut Cursor<'_>) -> Result<Accessors, ReadError>
    ensures { Reads (spec.closed Accessors.Get tokens.old) result tokens.new }
{
    tokens.expect_mark(Terminal::CloseBrace)?;
    Ok(Accessors::Get)
}

#[tactic(auto, unfolding(crate::specs::Read::rest_of_gets))]
fn rest_of_gets(tokens: &mut Cursor<'_>) -> Result<Accessors, ReadError>
    ensures { Reads (spec.rest_of_gets tokens.old) result tokens.new }
{
    tokens.expect_word(b"get")?;
    if let Some(_) = tokens.word(b"set") {
        return rest_of_set(tokens);
    }
    rest_of_get(tokens)
}

#[tactic(auto, unfolding(crate::specs::Read::setter))]
fn setter(alloc: Global, tokens: &mut Cursor<'_>, depth: u32) -> Result<Option<Block>, ReadError>
    requires { 0 < depth }
    ensures { Reads (spec.setter block_at depth tokens.old) result tokens.new }
{
    if let Some(_) = tokens.word(b"set") {
        let found = inner_block(alloc, tokens, depth)?;
        return Ok(Some(found));
    }
    Ok(None)
}

#[tactic(auto, unfolding(crate::specs::Read::rest_of_blocks))]
fn rest_of_blocks(
    alloc: Global,
    tokens: &mut Cursor<'_>,
    depth: u32,
) -> Result<Accessors, ReadError>
    requires { 0 < depth }
    ensures { Reads (spec.rest_of_blocks block_at depth tokens.old) result tokens.new }
{
    tokens.expect_word(b"get")?;
    let getter = inner_block(alloc, tokens, depth)?;
    let setter = setter(alloc, tokens, depth)?;
    tokens.expect_mark(Terminal::CloseBrace)?;
    Ok(Accessors::Blocks(getter, setter))
}

#[tactic(auto, unfolding(crate::specs::Read::blocks))]
fn blocks(alloc: Global, tokens: &mut Cursor<'_>, depth: u32) -> Result<Accessors, ReadError>
    ensures { Reads (spec.blocks block_at depth tokens.old) result tokens.new }
{
    let left = tokens.left();
    let Some(_) = tokens.mark(Terminal::OpenBrace) else {
        return Err(tokens.refused());
    };
    if depth == 0 {
        return Err(too_deep(left));
    }
    rest_of_blocks(alloc, tokens, depth)
}

#[tactic(auto, unfolding(crate::specs::Read::getter))]
fn getter(alloc: Global, tokens: &mut Cursor<'_>, depth: u32) -> Result<Accessors, ReadError>
    ensures { Reads (spec.getter block_at depth tokens.old) result tokens.new }
{
    let found = block(alloc, tokens, depth, false)?;
    Ok(Accessors::Block(found))
}

fn gets(tokens: &mut Cursor<'_>, depth: u32) -> Result<Accessors, ReadError>
    ensures { Reads (spec.gets depth tokens.old) result tokens.new }
{
    let left = tokens.left();
    let Some(_) = tokens.mark(Terminal::OpenBrace) else {
        return Err(tokens.refused());
    };
    if depth == 0 {
        return Err(too_deep(left));
    }
    rest_of_gets(tokens)
}

#[tactic(auto, unfolding(crate::specs::Read::braces))]
fn braces(
    alloc: Global,
    tokens: &mut Cursor<'_>,
    depth: u32,
    bodies: bool,
) -> Result<Accessors, ReadError>
    ensures { Reads (spec.braces block_at depth bodies tokens.old) result tokens.new }
{
    if !bodies {
        return gets(tokens, depth);
    }
    if begins_accessors(tokens) {
        return blocks(alloc, tokens, depth);
    }
    getter(alloc, tokens, depth)
}

#[tactic(auto, unfolding(crate::specs::Read::stored))]
fn stored(tokens: &Cursor<'_>, may: bool) -> Result<Accessors, ReadError>
    ensures { Reads (spec.stored may tokens.now) result tokens.now }
{
    if may {
        Ok(Accessors::Stored)
    } else {
        Err(tokens.refused())
    }
}

/// The accessors of a property, with bodies or without, or none where it may be stored.
#[tactic(auto, unfolding(crate::specs::Read::accessors_of))]
pub(crate) fn accessors(
    alloc: Global,
    tokens: &mut Cursor<'_>,
    depth: u32,
    bodies: bool,
    may: bool,
) -> Result<Accessors, ReadError>
    ensures { Reads (spec.accessors_of block_at depth bodies may tokens.old) result tokens.new }
{
    if tokens.starts(Terminal::OpenBrace) {
        return braces(alloc, tokens, depth, bodies);
    }
    stored(tokens, may)
}
