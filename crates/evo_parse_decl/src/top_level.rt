//! Declarations at the top level.

ghost use Rattle.std.specs.Prelude.{◌≡◌, ◌∷◌, [], ◌<◌, ◌||◌, ℕ, List, Bool, false};
ghost use Rattle.evo_combinators.specs.Guard.{starts};
ghost use Rattle.evo_combinators.specs.Reader.{Reads};
ghost use Rattle.evo_tree.specs.Declarations as grammar;
ghost use Rattle.evo_parse_decl.specs.Read as spec;
ghost use Rattle.evo_parse_decl.specs.Closed.{block_at};

use crate::decl::all_declared;
use crate::kind::{Kinds, one_kind, rest_of_function};
use crate::member::members;
use evo_base::{List, Place};
use evo_combinators::ReadError;
use evo_parse_expr::{Cursor, Lexeme, type_name};
use evo_parse_header::{
    attributes, has_attribute, inherited, is_modifier, is_nominal, modifiers, nominal_word,
};
use evo_tree::{Attr, AttrKind, Decl, DeclKind, NominalKind, Scope, Terminal};
use std::alloc::Global;

// What the members of a type stand in.
fn scope_of(kind: NominalKind, attrs: &[Attr]) -> Scope
    ensures { result ≡ grammar.scope_of kind attrs.now }
{
    match kind {
        NominalKind::Struct => {
            if has_attribute(AttrKind::Frozen, attrs) {
                Scope::FrozenStruct
            } else {
                Scope::Struct
            }
        }
        NominalKind::Enum => Scope::Enum,
        NominalKind::Class => Scope::Class,
        NominalKind::Protocol => Scope::Protocol,
    }
}

#[tactic(auto, unfolding(crate::specs::Read::rest_of_nominal))]
fn rest_of_nominal(
    alloc: Global,
    tokens: &mut Cursor<'_>,
    depth: u32,
    interface: bool,
    attrs: &[Attr],
    word: (Place, NominalKind),
) -> Result<Kinds, ReadError>
    ensures { Reads (spec.rest_of_nominal block_at interface depth attrs.now word tokens.old) result tokens.new }
{
    let (place, kind) = word;
    let name = tokens.expect_identifier(alloc)?;
    let inherited = inherited(alloc, tokens)?;
    let members = members(alloc, tokens, depth, interface, scope_of(kind, attrs))?;
    Ok(one_kind(
        alloc,
        place,
        DeclKind::Nominal(kind, name, inherited, members),
    )?)
}

#[tactic(auto, unfolding(crate::specs::Read::rest_of_extension))]
fn rest_of_extension(
    alloc: Global,
    tokens: &mut Cursor<'_>,
    depth: u32,
    interface: bool,
    place: Place,
) -> Result<Kinds, ReadError>
    ensures { Reads (spec.rest_of_extension block_at interface depth place tokens.old) result tokens.new }
{
    let extended = type_name(alloc, tokens)?;
    let inherited = inherited(alloc, tokens)?;
    let members = members(alloc, tokens, depth, interface, Scope::Extension)?;
    Ok(one_kind(
        alloc,
        place,
        DeclKind::Extension(extended, inherited, members),
    )?)
}

#[tactic(auto, unfolding(crate::specs::Read::top_kind))]
fn top_kind(
    alloc: Global,
    tokens: &mut Cursor<'_>,
    depth: u32,
    interface: bool,
    attrs: &[Attr],
) -> Result<Kinds, ReadError>
    ensures { Reads (spec.top_kind block_at interface depth attrs.now tokens.old) result tokens.new }
{
    if let Some(place) = tokens.mark(Terminal::Func) {
        return rest_of_function(
            alloc,
            tokens,
            depth,
            interface,
            Scope::TopLevel,
            attrs,
            place,
        );
    }
    if let Some(word) = nominal_word(tokens) {
        return rest_of_nominal(alloc, tokens, depth, interface, attrs, word);
    }
    if let Some(place) = tokens.mark(Terminal::Extension) {
        return rest_of_extension(alloc, tokens, depth, interface, place);
    }
    Err(tokens.refused())
}

/// A declaration at the top level of a text, which is an interface or not.
#[tactic(auto, unfolding(crate::specs::Read::top_declaration, crate::specs::Read::declaration_of))]
pub fn declaration(
    alloc: Global,
    tokens: &mut Cursor<'_>,
    depth: u32,
    interface: bool,
) -> Result<List<Decl>, ReadError>
    ensures { Reads (spec.top_declaration block_at interface depth tokens.old) result tokens.new }
{
    let attrs = attributes(alloc, tokens, depth)?;
    let modifiers = modifiers(alloc, tokens)?;
    let kinds = top_kind(alloc, tokens, depth, interface, attrs.as_slice())?;
    Ok(all_declared(
        alloc,
        Scope::TopLevel,
        attrs.as_slice(),
        modifiers.as_slice(),
        kinds,
    )?)
}

/// Whether a declaration at the top level begins with this token.
#[tactic(auto, unfolding(crate::specs::Read::begins_top))]
pub fn begins_declaration(token: &Lexeme<'_>) -> bool
    ensures { result ≡ spec.begins_top token.now }
{
    token.is(Terminal::At)
        || (is_modifier(token, &[])
            || (token.is(Terminal::Func) || (is_nominal(token) || token.is(Terminal::Extension))))
}
