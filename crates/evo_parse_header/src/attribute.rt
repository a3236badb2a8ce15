//! Attributes and modifiers.

ghost use Rattle.std.specs.Prelude.{◌≡◌, ◌∷◌, ◌++◌, ◌-◌, ◌^◌, ◌==◌, ℕ, List, Bool, IfOk, OnOk, filter, None, if◌then◌else◌};
ghost use Rattle.evo_combinators.specs.Reader.{Eats, Reads, lead};
ghost use Rattle.std.specs.List.{list_any};
ghost use Rattle.evo_tree.specs.Declarations as grammar;
ghost use Rattle.evo_parse_header.specs.Read as spec;

use crate::words::{
    attribute_number, attribute_word, expect_standing, has_modifier, modifier_number,
};
use evo_base::{List, Place, Release};
use evo_combinators::ReadError;
use evo_parse_expr::{Cursor, Lexeme, too_deep};
use evo_tree::{Attr, AttrKind, Availability, Modifier, ModifierKind, Terminal};
use std::alloc::{AllocError, Global};

// A number of a release.
fn number(tokens: &mut Cursor<'_>) -> Result<u32, ReadError>
    ensures { Reads (spec.number tokens.old) result tokens.new }
{
    let (_, value) = tokens.expect_integer(4_294_967_295)?;
    Ok(value as u32)
}

#[tactic(auto, unfolding(crate::specs::Read::minor))]
fn minor(tokens: &mut Cursor<'_>) -> Result<u32, ReadError>
    ensures { Reads (spec.minor tokens.old) result tokens.new }
{
    if let Some(_) = tokens.mark(Terminal::Dot) {
        return number(tokens);
    }
    Ok(0)
}

// The release that introduced something, and what stands behind it.
fn introduced(tokens: &mut Cursor<'_>) -> Result<Availability, ReadError>
    ensures { Reads (spec.rest_of_introduced tokens.old) result tokens.new }
{
    let major = number(tokens)?;
    let minor = minor(tokens)?;
    tokens.expect_mark(Terminal::Comma)?;
    tokens.expect_mark(Terminal::Star)?;
    Ok(Availability::Introduced(Release { major, minor }))
}

#[tactic(auto, unfolding(crate::specs::Read::availability))]
fn availability(tokens: &mut Cursor<'_>) -> Result<Availability, ReadError>
    ensures { Reads (spec.availability tokens.old) result tokens.new }
{
    if let Some(_) = tokens.mark(Terminal::Star) {
        tokens.expect_mark(Terminal::Comma)?;
        return expect_standing(tokens);
    }
    tokens.expect_word(b"macOS")?;
    introduced(tokens)
}

#[tactic(auto, unfolding(crate::specs::Read::rest_of_available))]
fn rest_of_available(tokens: &mut Cursor<'_>, depth: u32, place: Place) -> Result<Attr, ReadError>
    ensures { Reads (spec.rest_of_available depth place tokens.old) result tokens.new }
{
    let left = tokens.left();
    let Some(_) = tokens.mark(Terminal::OpenParenthesis) else {
        return Err(tokens.refused());
    };
    if depth == 0 {
        return Err(too_deep(left));
    }
    let found = availability(tokens)?;
    tokens.expect_mark(Terminal::CloseParenthesis)?;
    Ok(Attr {
        place,
        kind: AttrKind::Available(found),
    })
}

#[tactic(auto, unfolding(crate::specs::Read::attribute_at))]
fn attribute(tokens: &mut Cursor<'_>, depth: u32, attrs: &[Attr]) -> Result<Attr, ReadError>
    ensures { Reads (spec.attribute_at depth attrs.now tokens.old) result tokens.new }
{
    let place = tokens.expect_mark(Terminal::At)?;
    if let Some(kind) = attribute_word(tokens, attrs) {
        return Ok(Attr { place, kind });
    }
    tokens.expect_word(b"available")?;
    rest_of_available(tokens, depth, place)
}

/// The attributes before a declaration, as they are written.
#[tactic(auto, unfolding(crate::specs::Read::attributes))]
pub fn attributes(
    alloc: Global,
    tokens: &mut Cursor<'_>,
    depth: u32,
) -> Result<List<Attr>, ReadError>
    ensures { Reads (spec.attributes depth tokens.old) result tokens.new }
{
    let mut found = Vec::new(alloc);
    for _turn in 0..tokens.left() {
        if !tokens.starts(Terminal::At) {
            return Ok(List::from_vec(found));
        }
        let attr = attribute(tokens, depth, found.as_slice())?;
        found.push(attr)?;
    }
    Ok(List::from_vec(found))
}

// The modifier that a token is.
fn modifier_of(token: &Lexeme<'_>) -> Option<ModifierKind>
    ensures { result ≡ grammar.modifier_of token.now.terminal }
{
    if token.is(Terminal::Open) {
        Some(ModifierKind::Open)
    } else if token.is(Terminal::Public) {
        Some(ModifierKind::Public)
    } else if token.is(Terminal::Internal) {
        Some(ModifierKind::Internal)
    } else if token.is(Terminal::Private) {
        Some(ModifierKind::Private)
    } else if token.is(Terminal::Final) {
        Some(ModifierKind::Final)
    } else if token.is(Terminal::Static) {
        Some(ModifierKind::Static)
    } else if token.is(Terminal::Override) {
        Some(ModifierKind::Override)
    } else if token.is(Terminal::Mutating) {
        Some(ModifierKind::Mutating)
    } else {
        None
    }
}

// The modifier at the front, where it is none of these.
#[tactic(auto, unfolding(evo_combinators::specs::Reader::lead, evo_tree::specs::Declarations::modifier_word))]
fn modifier_word<'a>(tokens: &mut Cursor<'a>, modifiers: &[Modifier]) -> Option<Modifier>
    ensures { Eats (lead (grammar.modifier_word modifiers.now) tokens.old) result tokens.old tokens.new }
{
    let (first, rest) = tokens.next()?;
    let kind = modifier_of(first)?;
    if has_modifier(kind, modifiers) {
        return None;
    }
    *tokens = rest;
    Some(Modifier {
        place: first.place(),
        kind,
    })
}

/// The modifiers before a declaration, as they are written.
#[tactic(auto, unfolding(crate::specs::Read::modifiers))]
pub fn modifiers(alloc: Global, tokens: &mut Cursor<'_>) -> Result<List<Modifier>, ReadError>
    ensures { Reads (spec.modifiers tokens.old) result tokens.new }
{
    let mut found = Vec::new(alloc);
    for _turn in 0..tokens.left() {
        let Some(modifier) = modifier_word(tokens, found.as_slice()) else {
            return Ok(List::from_vec(found));
        };
        found.push(modifier)?;
    }
    Ok(List::from_vec(found))
}

// The attributes of this number, behind others.
fn add_attributes(found: &mut Vec<Attr>, attrs: &[Attr], number: u8) -> Result<(), AllocError>
    ensures { OnOk result (found.new.items ≡ found.old.items ++ filter (grammar.is_attribute number) attrs.now) }
{
    for attr in attrs {
        if attribute_number(attr.kind) == number {
            found.push(*attr)?;
        }
    }
    Ok(())
}

/// Attributes in their order.
#[tactic(auto, unfolding(evo_tree::specs::Declarations::ordered_attributes))]
pub fn ordered_attributes(alloc: Global, attrs: &[Attr]) -> Result<List<Attr>, AllocError>
    ensures { IfOk result (λ ordered. ordered ≡ grammar.ordered_attributes attrs.now) }
{
    let mut found = Vec::new(alloc);
    add_attributes(&mut found, attrs, 0)?;
    add_attributes(&mut found, attrs, 1)?;
    add_attributes(&mut found, attrs, 2)?;
    add_attributes(&mut found, attrs, 3)?;
    Ok(List::from_vec(found))
}

fn modifier_rank(kind: ModifierKind) -> u8
    ensures { result ≡ grammar.modifier_rank kind }
{
    modifier_number(kind).saturating_sub(3)
}

// The modifiers of this rank, behind others.
fn add_modifiers(
    found: &mut Vec<Modifier>,
    modifiers: &[Modifier],
    rank: u8,
) -> Result<(), AllocError>
    ensures { OnOk result (found.new.items ≡ found.old.items ++ filter (grammar.is_ranked rank) modifiers.now) }
{
    for modifier in modifiers {
        if modifier_rank(modifier.kind) == rank {
            found.push(*modifier)?;
        }
    }
    Ok(())
}

/// Whether an access is among these.
fn has_written_access(modifiers: &[Modifier]) -> bool
    ensures { result ≡ list_any (grammar.is_ranked 0) modifiers.now }
{
    modifiers
        .iter()
        .any(|modifier| modifier_rank(modifier.kind) == 0)
}

/// Modifiers in their order, with an access that is not written where one is to stand.
#[tactic(auto, unfolding(evo_tree::specs::Declarations::ordered_modifiers))]
pub fn with_access(
    alloc: Global,
    modifiers: &[Modifier],
    place: Place,
    wants: bool,
) -> Result<List<Modifier>, AllocError>
    ensures { IfOk result (λ ordered. ordered ≡ grammar.with_access wants place modifiers.now) }
{
    let mut found = Vec::new(alloc);
    if wants && !has_written_access(modifiers) {
        found.push(Modifier {
            place,
            kind: ModifierKind::Internal,
        })?;
    }
    for modifier in modifiers {
        found.push(*modifier)?;
    }
    Ok(List::from_vec(found))
}

/// Modifiers in their order.
#[tactic(auto, unfolding(evo_tree::specs::Declarations::ordered_modifiers))]
pub fn ordered_modifiers(
    alloc: Global,
    modifiers: &[Modifier],
) -> Result<List<Modifier>, AllocError>
    ensures { IfOk result (λ ordered. ordered ≡ grammar.ordered_modifiers modifiers.now) }
{
    let mut found = Vec::new(alloc);
    add_modifiers(&mut found, modifiers, 0)?;
    add_modifiers(&mut found, modifiers, 1)?;
    add_modifiers(&mut found, modifiers, 2)?;
    add_modifiers(&mut found, modifiers, 3)?;
    add_modifiers(&mut found, modifiers, 4)?;
    Ok(List::from_vec(found))
}

/// Whether a token is a modifier that is none of these.
#[tactic(auto, unfolding(evo_tree::specs::Declarations::modifier_word))]
pub fn is_modifier(token: &Lexeme<'_>, modifiers: &[Modifier]) -> bool
    ensures { result ≡ spec.is_modifier modifiers.now token.now }
{
    match modifier_of(token) {
        Some(kind) => !has_modifier(kind, modifiers),
        None => false,
    }
}
