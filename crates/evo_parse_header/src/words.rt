//! Tests of the first token, and of those behind it.

ghost use Rattle.std.specs.Prelude.{◌≡◌, ◌∷◌, ◌&&◌, ℕ, List, Bool, None, if◌then◌else◌};
ghost use Rattle.std.specs.List.{list_any};
ghost use Rattle.std.specs.Option.{is_some};
ghost use Rattle.evo_combinators.specs.Guard.{starts};
ghost use Rattle.evo_combinators.specs.Reader.{lead, one, Eats, Reads};
ghost use Rattle.evo_tree.specs.Pieces as pieces;
ghost use Rattle.evo_tree.specs.Declarations as grammar;
ghost use Rattle.evo_parse_header.specs.Read as spec;

use evo_base::Place;
use evo_combinators::ReadError;
use evo_parse_expr::{Cursor, Lexeme};
use evo_tree::{
    Attr, AttrKind, Availability, Modifier, ModifierKind, NominalKind, Role, Scope, Terminal,
};

/// Takes this terminal, where it may stand.
#[tactic(auto, unfolding(evo_combinators::specs::Reader::lead))]
pub fn mark_if<'a>(tokens: &mut Cursor<'a>, may: bool, terminal: Terminal) -> Option<Place>
    ensures { Eats (lead (grammar.only_if may (pieces.mark terminal)) tokens.old) result tokens.old tokens.new }
{
    let (first, rest) = tokens.next()?;
    if !may {
        return None;
    }
    let found = first.mark(terminal)?;
    *tokens = rest;
    Some(found)
}

/// Takes an operator between two types.
#[tactic(auto, unfolding(evo_combinators::specs::Reader::lead, evo_tree::specs::Declarations::infix_mark))]
pub(crate) fn infix_mark<'a>(tokens: &mut Cursor<'a>, terminal: Terminal) -> Option<Place>
    ensures { Eats (lead (grammar.infix_mark terminal) tokens.old) result tokens.old tokens.new }
{
    let (first, rest) = tokens.next()?;
    if first.is(terminal) && first.has_role(Role::Infix) {
        *tokens = rest;
        Some(first.place())
    } else {
        None
    }
}

/// Takes an operator between two types, or refuses the first token.
pub(crate) fn expect_infix(tokens: &mut Cursor<'_>, terminal: Terminal) -> Result<Place, ReadError>
    ensures { Reads (one (grammar.infix_mark terminal) tokens.old) result tokens.new }
{
    match infix_mark(tokens, terminal) {
        Some(place) => Ok(place),
        None => Err(tokens.refused()),
    }
}

/// Takes `deprecated` or `unavailable`, or refuses the first token.
#[tactic(auto, unfolding(evo_combinators::specs::Reader::lead, evo_tree::specs::Declarations::standing))]
fn standing<'a>(tokens: &mut Cursor<'a>) -> Option<Availability>
    ensures { Eats (lead grammar.standing tokens.old) result tokens.old tokens.new }
{
    let (first, rest) = tokens.next()?;
    if first.is_word(b"deprecated") {
        *tokens = rest;
        return Some(Availability::Deprecated);
    }
    if first.is_word(b"unavailable") {
        *tokens = rest;
        return Some(Availability::Unavailable);
    }
    None
}

pub(crate) fn expect_standing(tokens: &mut Cursor<'_>) -> Result<Availability, ReadError>
    ensures { Reads (one grammar.standing tokens.old) result tokens.new }
{
    match standing(tokens) {
        Some(found) => Ok(found),
        None => Err(tokens.refused()),
    }
}

pub(crate) fn attribute_number(kind: AttrKind) -> u8
    ensures { result ≡ grammar.attribute_number kind }
{
    match kind {
        AttrKind::Frozen => 0,
        AttrKind::Inlinable => 1,
        AttrKind::UsableFromInline => 2,
        AttrKind::Available(_) => 3,
    }
}

/// Whether an attribute of this kind is among these.
pub fn has_attribute(kind: AttrKind, attrs: &[Attr]) -> bool
    ensures { result ≡ grammar.has_attribute kind attrs.now }
{
    let number = attribute_number(kind);
    attrs
        .iter()
        .any(|attr| attribute_number(attr.kind) == number)
}

fn attribute_of(token: &Lexeme<'_>) -> Option<AttrKind>
    ensures { result ≡ (if pieces.is_terminal Terminal.Identifier token.now then grammar.attribute_of token.now.text else None) }
{
    if token.is_word(b"frozen") {
        Some(AttrKind::Frozen)
    } else if token.is_word(b"inlinable") {
        Some(AttrKind::Inlinable)
    } else if token.is_word(b"usableFromInline") {
        Some(AttrKind::UsableFromInline)
    } else {
        None
    }
}

/// Takes the word of an attribute that is not among these.
#[tactic(auto, unfolding(evo_combinators::specs::Reader::lead, evo_tree::specs::Declarations::attribute_word))]
pub(crate) fn attribute_word<'a>(tokens: &mut Cursor<'a>, attrs: &[Attr]) -> Option<AttrKind>
    ensures { Eats (lead (grammar.attribute_word attrs.now) tokens.old) result tokens.old tokens.new }
{
    let (first, rest) = tokens.next()?;
    let kind = attribute_of(first)?;
    if has_attribute(kind, attrs) {
        return None;
    }
    *tokens = rest;
    Some(kind)
}

pub(crate) fn modifier_number(kind: ModifierKind) -> u8
    ensures { result ≡ grammar.modifier_number kind }
{
    match kind {
        ModifierKind::Open => 0,
        ModifierKind::Public => 1,
        ModifierKind::Internal => 2,
        ModifierKind::Private => 3,
        ModifierKind::Final => 4,
        ModifierKind::Static => 5,
        ModifierKind::Override => 6,
        ModifierKind::Mutating => 7,
    }
}

/// Whether a modifier of this kind is among these.
pub fn has_modifier(kind: ModifierKind, modifiers: &[Modifier]) -> bool
    ensures { result ≡ grammar.has_modifier kind modifiers.now }
{
    let number = modifier_number(kind);
    modifiers
        .iter()
        .any(|modifier| modifier_number(modifier.kind) == number)
}

/// Takes the word of a type or protocol.
#[tactic(auto, unfolding(evo_combinators::specs::Reader::lead, evo_tree::specs::Declarations::nominal_word))]
pub fn nominal_word<'a>(tokens: &mut Cursor<'a>) -> Option<(Place, NominalKind)>
    ensures { Eats (lead grammar.nominal_word tokens.old) result tokens.old tokens.new }
{
    let (first, rest) = tokens.next()?;
    let kind = if first.is(Terminal::Struct) {
        NominalKind::Struct
    } else if first.is(Terminal::Enum) {
        NominalKind::Enum
    } else if first.is(Terminal::Class) {
        NominalKind::Class
    } else if first.is(Terminal::Protocol) {
        NominalKind::Protocol
    } else {
        return None;
    };
    *tokens = rest;
    Some((first.place(), kind))
}

/// Whether a token is the word of a type or protocol.
#[tactic(auto, unfolding(evo_tree::specs::Declarations::nominal_word))]
pub fn is_nominal(token: &Lexeme<'_>) -> bool
    ensures { result ≡ is_some (grammar.nominal_word token.now) }
{
    token.is(Terminal::Struct)
        || token.is(Terminal::Enum)
        || token.is(Terminal::Class)
        || token.is(Terminal::Protocol)
}
