//! Reads patterns.

ghost use Rattle.std.specs.Prelude.{◌≡◌, ◌∷◌, ℕ, List};
ghost use Rattle.evo_combinators.specs.Reader.{Reads, many};
ghost use Rattle.evo_tree.specs.Pieces.{mark};
ghost use Rattle.evo_tree.specs.declared.terminal.Terminal.TheVariants.{Comma};
ghost use Rattle.evo_parse_expr.specs.Read.{after};
ghost use Rattle.evo_parse_stmt.specs.Read as spec;

use crate::lead::attached_minus;
use evo_base::{List, Name, Place};
use evo_combinators::ReadError;
use evo_parse_expr::{Cursor, discard, too_deep};
use evo_tree::{Binding, Identifier, Pattern, Terminal, TypeName};
use std::alloc::Global;

// A name behind `let`.
fn named_binder(
    alloc: Global,
    tokens: &mut Cursor<'_>,
    label: Option<Identifier>,
) -> Result<Binding, ReadError>
    ensures { Reads (spec.named_binder label tokens.old) result tokens.new }
{
    match tokens.expect_identifier(alloc) {
        Ok(name) => Ok(Binding {
            label,
            name: Some(name),
        }),
        Err(error) => {
            discard(label);
            Err(error)
        }
    }
}

fn blank_binder(tokens: &mut Cursor<'_>, label: Option<Identifier>) -> Result<Binding, ReadError>
    ensures { Reads (spec.blank_binder label tokens.old) result tokens.new }
{
    match tokens.expect_mark(Terminal::Underscore) {
        Ok(_) => Ok(Binding { label, name: None }),
        Err(error) => {
            discard(label);
            Err(error)
        }
    }
}

#[tactic(auto, unfolding(crate::specs::Read::binder))]
fn binder(
    alloc: Global,
    tokens: &mut Cursor<'_>,
    label: Option<Identifier>,
) -> Result<Binding, ReadError>
    ensures { Reads (spec.binder label tokens.old) result tokens.new }
{
    if let Some(_) = tokens.mark(Terminal::Let) {
        return named_binder(alloc, tokens, label);
    }
    blank_binder(tokens, label)
}

#[tactic(auto, unfolding(crate::specs::Read::sub))]
fn sub(alloc: Global, tokens: &mut Cursor<'_>) -> Result<Binding, ReadError>
    ensures { Reads (spec.sub tokens.old) result tokens.new }
{
    if let Some(label) = tokens.identifier(alloc)? {
        tokens.expect_mark(Terminal::Colon)?;
        return binder(alloc, tokens, Some(label));
    }
    binder(alloc, tokens, None)
}

// The first one and those behind commas.
fn further_subs(
    alloc: Global,
    tokens: &mut Cursor<'_>,
    first: Binding,
) -> Result<List<Binding>, ReadError>
    ensures { Reads (after first (many (mark Comma) (λ _. spec.sub)) tokens.old) result tokens.new }
{
    let mut found = Vec::new(alloc);
    found.push(first)?;
    for _turn in 0..tokens.left() {
        let Some(_) = tokens.mark(Terminal::Comma) else {
            return Ok(List::from_vec(found));
        };
        found.push(sub(alloc, tokens)?)?;
    }
    Ok(List::from_vec(found))
}

#[tactic(auto, unfolding(crate::specs::Read::subs))]
fn subs(alloc: Global, tokens: &mut Cursor<'_>) -> Result<List<Binding>, ReadError>
    ensures { Reads (spec.subs tokens.old) result tokens.new }
{
    let first = sub(alloc, tokens)?;
    further_subs(alloc, tokens, first)
}

#[tactic(auto, unfolding(crate::specs::Read::rest_of_payload))]
fn rest_of_payload(alloc: Global, tokens: &mut Cursor<'_>) -> Result<List<Binding>, ReadError>
    ensures { Reads (spec.rest_of_payload tokens.old) result tokens.new }
{
    let found = subs(alloc, tokens)?;
    tokens.expect_mark(Terminal::CloseParenthesis)?;
    Ok(found)
}

#[tactic(auto, unfolding(crate::specs::Read::payload))]
fn payload(
    alloc: Global,
    tokens: &mut Cursor<'_>,
    depth: u32,
) -> Result<Option<List<Binding>>, ReadError>
    ensures { Reads (spec.payload depth tokens.old) result tokens.new }
{
    let left = tokens.left();
    let Some(_) = tokens.mark(Terminal::OpenParenthesis) else {
        return Ok(None);
    };
    if depth == 0 {
        return Err(too_deep(left));
    }
    Ok(Some(rest_of_payload(alloc, tokens)?))
}

// The type and the case that the first name, the second one and those behind it are.
fn rest_of_path(
    alloc: Global,
    tokens: &mut Cursor<'_>,
    head: (Place, Name),
    second: Identifier,
) -> Result<(TypeName, Identifier), ReadError>
    ensures { Reads (spec.rest_of_path head second tokens.old) result tokens.new }
{
    let (place, first) = head;
    let mut names = Vec::new(alloc);
    names.push(first)?;
    let mut last = second;
    for _turn in 0..tokens.left() {
        let Some(_) = tokens.mark(Terminal::Dot) else {
            let names = List::from_vec(names);
            return Ok((TypeName { place, names }, last));
        };
        let next = tokens.expect_identifier(alloc)?;
        names.push(last.text)?;
        last = next;
    }
    let names = List::from_vec(names);
    Ok((TypeName { place, names }, last))
}

#[tactic(auto, unfolding(crate::specs::Read::path))]
fn path(
    alloc: Global,
    tokens: &mut Cursor<'_>,
    head: (Place, Name),
) -> Result<(TypeName, Identifier), ReadError>
    ensures { Reads (spec.path head tokens.old) result tokens.new }
{
    tokens.expect_mark(Terminal::Dot)?;
    let second = tokens.expect_identifier(alloc)?;
    rest_of_path(alloc, tokens, head, second)
}

#[tactic(auto, unfolding(crate::specs::Read::implicit))]
fn implicit(
    alloc: Global,
    tokens: &mut Cursor<'_>,
    depth: u32,
    place: Place,
) -> Result<Pattern, ReadError>
    ensures { Reads (spec.implicit depth place tokens.old) result tokens.new }
{
    let name = tokens.expect_identifier(alloc)?;
    let bindings = payload(alloc, tokens, depth)?;
    Ok(Pattern::Case(place, None, name, bindings))
}

#[tactic(auto, unfolding(crate::specs::Read::typed))]
fn typed(
    alloc: Global,
    tokens: &mut Cursor<'_>,
    depth: u32,
    head: (Place, Name),
) -> Result<Pattern, ReadError>
    ensures { Reads (spec.typed depth head tokens.old) result tokens.new }
{
    let place = head.0;
    let (type_name, name) = path(alloc, tokens, head)?;
    let bindings = payload(alloc, tokens, depth)?;
    Ok(Pattern::Case(place, Some(type_name), name, bindings))
}

#[tactic(auto, unfolding(crate::specs::Read::magnitude))]
fn magnitude(tokens: &mut Cursor<'_>, place: Place) -> Result<Pattern, ReadError>
    ensures { Reads (spec.magnitude place tokens.old) result tokens.new }
{
    let (_, value) = tokens.expect_integer(0x8000_0000_0000_0000)?;
    Ok(Pattern::Negative(place, value))
}

/// A pattern at the front of the tokens, where so much nesting may still open.
#[tactic(auto, unfolding(crate::specs::Read::pattern))]
pub fn pattern(alloc: Global, tokens: &mut Cursor<'_>, depth: u32) -> Result<Pattern, ReadError>
    ensures { Reads (spec.pattern depth tokens.old) result tokens.new }
{
    if let Some(place) = tokens.mark(Terminal::Dot) {
        return implicit(alloc, tokens, depth, place);
    }
    if let Some(head) = tokens.type_head(alloc)? {
        return typed(alloc, tokens, depth, head);
    }
    if let Some(place) = attached_minus(tokens) {
        return magnitude(tokens, place);
    }
    if let Some((place, value)) = tokens.integer(0x7fff_ffff_ffff_ffff) {
        return Ok(Pattern::Integer(place, value));
    }
    if let Some((place, value)) = tokens.string(alloc)? {
        return Ok(Pattern::String(place, value));
    }
    if let Some(place) = tokens.mark(Terminal::True) {
        return Ok(Pattern::Boolean(place, true));
    }
    let place = tokens.expect_mark(Terminal::False)?;
    Ok(Pattern::Boolean(place, false))
}
