//! What stands in braces: kinds of declarations that are members.

ghost use Rattle.std.specs.Prelude.{◌≡◌, ◌∷◌, [], ◌<◌, ℕ, List, Bool, IfOk};
ghost use Rattle.evo_combinators.specs.Reader.{Reads};
ghost use Rattle.evo_tree.specs.Declarations as grammar;
ghost use Rattle.evo_parse_decl.specs.Read as spec;
ghost use Rattle.evo_parse_decl.specs.Closed.{block_at};

use crate::property::accessors;
use evo_base::{List, Place};
use evo_combinators::ReadError;
use evo_parse_expr::{Cursor, discard, type_name};
use evo_parse_header::{conforming, has_attribute, header, is_protocol, mark_if, rest_of_cases};
use evo_parse_stmt::block;
use evo_tree::{
    Accessors, Attr, AttrKind, Block, DeclKind, Identifier, Introducer, Scope, Terminal, TypeName,
};
use std::alloc::{AllocError, Global};

/// Kinds of declarations, at the word that begins them.
pub(crate) type Kinds = (Place, List<DeclKind>);

/// One kind of declaration.
pub(crate) fn one_kind(alloc: Global, place: Place, kind: DeclKind) -> Result<Kinds, AllocError>
    ensures { IfOk result (λ w. w ≡ grammar.one_kind place kind) }
{
    let mut kinds = Vec::new(alloc);
    kinds.push(kind)?;
    Ok((place, List::from_vec(kinds)))
}

#[tactic(auto, unfolding(crate::specs::Read::rest_of_let))]
fn rest_of_let(alloc: Global, tokens: &mut Cursor<'_>, place: Place) -> Result<Kinds, ReadError>
    ensures { Reads (spec.rest_of_let place tokens.old) result tokens.new }
{
    let name = tokens.expect_identifier(alloc)?;
    tokens.expect_mark(Terminal::Colon)?;
    let type_name = type_name(alloc, tokens)?;
    let kind = DeclKind::Property(Introducer::Let, name, type_name, Accessors::Stored);
    Ok(one_kind(alloc, place, kind)?)
}

#[tactic(auto, unfolding(crate::specs::Read::rest_of_alias))]
fn rest_of_alias(alloc: Global, tokens: &mut Cursor<'_>, place: Place) -> Result<Kinds, ReadError>
    ensures { Reads (spec.rest_of_alias place tokens.old) result tokens.new }
{
    let name = tokens.expect_identifier(alloc)?;
    tokens.expect_mark(Terminal::Equal)?;
    let type_name = type_name(alloc, tokens)?;
    Ok(one_kind(alloc, place, DeclKind::TypeAlias(name, type_name))?)
}

#[tactic(auto, unfolding(crate::specs::Read::default))]
fn default_type(alloc: Global, tokens: &mut Cursor<'_>) -> Result<Option<TypeName>, ReadError>
    ensures { Reads (spec.default tokens.old) result tokens.new }
{
    if let Some(_) = tokens.mark(Terminal::Equal) {
        let found = type_name(alloc, tokens)?;
        return Ok(Some(found));
    }
    Ok(None)
}

#[tactic(auto, unfolding(crate::specs::Read::rest_of_associated))]
fn rest_of_associated(
    alloc: Global,
    tokens: &mut Cursor<'_>,
    place: Place,
) -> Result<Kinds, ReadError>
    ensures { Reads (spec.rest_of_associated place tokens.old) result tokens.new }
{
    let name = tokens.expect_identifier(alloc)?;
    let protocols = conforming(alloc, tokens)?;
    let default = default_type(alloc, tokens)?;
    Ok(one_kind(
        alloc,
        place,
        DeclKind::AssociatedType(name, protocols, default),
    )?)
}

fn has_storage(scope: Scope) -> bool
    ensures { result ≡ grammar.has_storage scope }
{
    match scope {
        Scope::Struct | Scope::FrozenStruct | Scope::Class => true,
        _ => false,
    }
}

fn is_frozen(scope: Scope) -> bool
    ensures { result ≡ grammar.is_frozen scope }
{
    match scope {
        Scope::FrozenStruct => true,
        _ => false,
    }
}

pub(crate) fn is_enum(scope: Scope) -> bool
    ensures { result ≡ grammar.is_enum scope }
{
    match scope {
        Scope::Enum => true,
        _ => false,
    }
}

/// Whether a body stands here, and always.
pub(crate) fn has_body(interface: bool, scope: Scope, attrs: &[Attr]) -> bool
    ensures { result ≡ grammar.has_body interface scope attrs.now }
{
    let inlinable = has_attribute(AttrKind::Inlinable, attrs);
    !is_protocol(scope) && (!interface || inlinable)
}

pub(crate) fn may_stand(interface: bool, scope: Scope, attrs: &[Attr]) -> bool
    ensures { result ≡ grammar.may_stand interface scope attrs.now }
{
    let inlinable = has_attribute(AttrKind::Inlinable, attrs);
    !(is_protocol(scope) && interface && inlinable)
}

pub(crate) fn may_be_stored(interface: bool, scope: Scope, attrs: &[Attr]) -> bool
    ensures { result ≡ grammar.may_be_stored interface scope attrs.now }
{
    let inlinable = has_attribute(AttrKind::Inlinable, attrs);
    if interface {
        is_frozen(scope) && !inlinable
    } else {
        has_storage(scope)
    }
}

#[tactic(auto, unfolding(crate::specs::Read::body))]
fn body(
    alloc: Global,
    tokens: &mut Cursor<'_>,
    depth: u32,
    inits: bool,
    has: bool,
) -> Result<Option<Block>, ReadError>
    ensures { Reads (spec.body block_at depth inits has tokens.old) result tokens.new }
{
    if has {
        let found = block(alloc, tokens, depth, inits)?;
        return Ok(Some(found));
    }
    Ok(None)
}

// A function behind its name.
fn function_of(
    alloc: Global,
    tokens: &mut Cursor<'_>,
    depth: u32,
    interface: bool,
    scope: Scope,
    attrs: &[Attr],
    place: Place,
    name: Identifier,
) -> Result<Kinds, ReadError>
    ensures { Reads (spec.function_of block_at interface scope depth attrs.now place name tokens.old) result tokens.new }
{
    let header = header(alloc, tokens, depth, scope, true)?;
    let has = has_body(interface, scope, attrs);
    match body(alloc, tokens, depth, false, has) {
        Ok(body) => Ok(one_kind(alloc, place, DeclKind::Function(name, header, body))?),
        Err(error) => {
            discard(name);
            discard(header);
            Err(error)
        }
    }
}

/// A function behind `func`.
#[tactic(auto, unfolding(crate::specs::Read::rest_of_function))]
pub(crate) fn rest_of_function(
    alloc: Global,
    tokens: &mut Cursor<'_>,
    depth: u32,
    interface: bool,
    scope: Scope,
    attrs: &[Attr],
    place: Place,
) -> Result<Kinds, ReadError>
    ensures { Reads (spec.rest_of_function block_at interface scope depth attrs.now place tokens.old) result tokens.new }
{
    let name = tokens.expect_identifier(alloc)?;
    function_of(alloc, tokens, depth, interface, scope, attrs, place, name)
}

#[tactic(auto, unfolding(crate::specs::Read::rest_of_initialiser))]
fn rest_of_initialiser(
    alloc: Global,
    tokens: &mut Cursor<'_>,
    depth: u32,
    interface: bool,
    scope: Scope,
    attrs: &[Attr],
    place: Place,
) -> Result<Kinds, ReadError>
    ensures { Reads (spec.rest_of_initialiser block_at interface scope depth attrs.now place tokens.old) result tokens.new }
{
    let header = header(alloc, tokens, depth, scope, false)?;
    let has = has_body(interface, scope, attrs);
    match body(alloc, tokens, depth, true, has) {
        Ok(body) => Ok(one_kind(alloc, place, DeclKind::Initialiser(header, body))?),
        Err(error) => {
            discard(header);
            Err(error)
        }
    }
}

#[tactic(auto, unfolding(crate::specs::Read::rest_of_var))]
fn rest_of_var(
    alloc: Global,
    tokens: &mut Cursor<'_>,
    depth: u32,
    interface: bool,
    scope: Scope,
    attrs: &[Attr],
    place: Place,
) -> Result<Kinds, ReadError>
    ensures { Reads (spec.rest_of_var block_at interface scope depth attrs.now place tokens.old) result tokens.new }
{
    let name = tokens.expect_identifier(alloc)?;
    tokens.expect_mark(Terminal::Colon)?;
    let type_name = type_name(alloc, tokens)?;
    let bodies = has_body(interface, scope, attrs);
    let may = may_be_stored(interface, scope, attrs);
    let accessors = accessors(alloc, tokens, depth, bodies, may)?;
    let kind = DeclKind::Property(Introducer::Var, name, type_name, accessors);
    Ok(one_kind(alloc, place, kind)?)
}

/// What is declared in braces.
#[tactic(auto, unfolding(crate::specs::Read::member_kind))]
pub(crate) fn member_kind(
    alloc: Global,
    tokens: &mut Cursor<'_>,
    depth: u32,
    interface: bool,
    scope: Scope,
    attrs: &[Attr],
) -> Result<Kinds, ReadError>
    ensures { Reads (spec.member_kind block_at interface scope depth attrs.now tokens.old) result tokens.new }
{
    let may = may_stand(interface, scope, attrs);
    let in_type = !is_protocol(scope);
    if let Some(place) = mark_if(tokens, may, Terminal::Func) {
        return rest_of_function(alloc, tokens, depth, interface, scope, attrs, place);
    }
    if let Some(place) = mark_if(tokens, in_type, Terminal::Init) {
        return rest_of_initialiser(alloc, tokens, depth, interface, scope, attrs, place);
    }
    if let Some(place) = mark_if(tokens, may, Terminal::Var) {
        return rest_of_var(alloc, tokens, depth, interface, scope, attrs, place);
    }
    if let Some(place) = mark_if(
        tokens,
        may_be_stored(interface, scope, attrs),
        Terminal::Let,
    ) {
        return rest_of_let(alloc, tokens, place);
    }
    if let Some(place) = mark_if(tokens, in_type, Terminal::Typealias) {
        return rest_of_alias(alloc, tokens, place);
    }
    if let Some(place) = mark_if(tokens, is_protocol(scope), Terminal::Associatedtype) {
        return rest_of_associated(alloc, tokens, place);
    }
    if let Some(place) = mark_if(tokens, is_enum(scope), Terminal::Case) {
        return rest_of_cases(alloc, tokens, depth, place);
    }
    Err(tokens.refused())
}
