//! Declarations of their parts.

ghost use Rattle.std.specs.Prelude.{◌≡◌, ◌∷◌, [], ◌++◌, ℕ, List, Bool, IfOk, map, flat_map};
ghost use Rattle.evo_tree.specs.Declarations as grammar;

use crate::kind::Kinds;
use evo_base::{List, Place};
use evo_parse_header::{
    has_modifier, is_protocol, ordered_attributes, ordered_modifiers, with_access,
};
use evo_tree::{Attr, Decl, DeclKind, Modifier, ModifierKind, Scope};
use sqlite_items::Items;
use std::alloc::{AllocError, Global};

// Whether an access that is not written is `internal`.
fn has_access(scope: Scope, modifiers: &[Modifier], kind: &DeclKind) -> bool
    ensures { result ≡ grammar.has_access scope modifiers.now kind.now }
{
    if is_protocol(scope) {
        return false;
    }
    match kind {
        DeclKind::Function(..) => !has_modifier(ModifierKind::Override, modifiers),
        DeclKind::Case(..) | DeclKind::Extension(..) => false,
        _ => true,
    }
}

// The attributes and the modifiers of a declaration, as its tree has them.
fn ordered(
    alloc: Global,
    attrs: &[Attr],
    modifiers: &[Modifier],
    place: Place,
    wants: bool,
) -> Result<(List<Attr>, List<Modifier>), AllocError>
    ensures attrs { IfOk result (λ x. x.0 ≡ grammar.ordered_attributes attrs.now) }
    ensures modifiers { IfOk result (λ x. x.1 ≡ grammar.with_access wants place (grammar.ordered_modifiers modifiers.now)) }
{
    let attrs = ordered_attributes(alloc, attrs)?;
    let modifiers = ordered_modifiers(alloc, modifiers)?;
    let modifiers = with_access(alloc, modifiers.as_slice(), place, wants)?;
    Ok((attrs, modifiers))
}

fn declared(
    alloc: Global,
    scope: Scope,
    attrs: &[Attr],
    modifiers: &[Modifier],
    place: Place,
    kind: DeclKind,
) -> Result<Decl, AllocError>
    ensures { IfOk result (λ x. x ≡ grammar.declaration scope attrs.now modifiers.now place kind) }
{
    let wants = has_access(scope, modifiers, &kind);
    let (attrs, modifiers) = ordered(alloc, attrs, modifiers, place, wants)?;
    Ok(Decl {
        place,
        attrs,
        modifiers,
        kind,
    })
}

/// The declarations of these kinds.
pub(crate) fn all_declared(
    alloc: Global,
    scope: Scope,
    attrs: &[Attr],
    modifiers: &[Modifier],
    kinds: Kinds,
) -> Result<List<Decl>, AllocError>
    ensures { IfOk result (λ ds. ds ≡ map (grammar.declaration scope attrs.now modifiers.now kinds.0) kinds.1) }
{
    let (place, kinds) = kinds;
    let mut found = Vec::with_capacity(alloc, kinds.as_slice().len())?;
    for kind in kinds.into_vec() {
        found.push(declared(alloc, scope, attrs, modifiers, place, kind)?)?;
    }
    Ok(List::from_vec(found))
}

/// The declarations of several places, one after the other.
pub(crate) fn joined(alloc: Global, parts: List<List<Decl>>) -> Result<Items<Decl>, AllocError>
    ensures { IfOk result (λ ds. ds ≡ flat_map (λ d. d) parts) }
{
    let mut found = Vec::with_capacity(alloc, parts.as_slice().len())?;
    for part in parts.into_vec() {
        found.append(&mut part.into_vec())?;
    }
    Ok(Items::from_vec(found))
}
