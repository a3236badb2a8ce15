//! Declarations once the names of their headers are resolved.

ghost use Rattle.std.specs.Prelude.{◌≡◌, ◌≤◌, IfOk, MatchOption, Some, length};
ghost use Rattle.evo_declarations.specs.Views.{entry_view};
ghost use Rattle.evo_declarations.specs.Worlds.{world_of};
ghost use Rattle.evo_headers.specs.DeclaredParts.{IsPlaced, assembled_of};
ghost use Rattle.evo_headers.specs.Gaps.{Resolves};
ghost use Rattle.evo_headers.specs.Unresolved.{IsUnresolved};
ghost use Rattle.evo_keys.specs.Bases.{AreBases, world_with};
ghost use Rattle.evo_names.specs.Bodies as bodies;
ghost use Rattle.evo_names.specs.Keys as keys;
ghost use Rattle.evo_names.specs.Listed as names;
ghost use Rattle.evo_type_names.specs.Known.{AllKnown};
ghost use Rattle.evo_names.specs.Resolved as resolved;
ghost use Rattle.evo_names.specs.Resolved.{IsDeclared, IsKind, declared_in};

use crate::gap::Gap;
use crate::kinds::kind_of;
use crate::scopes::{scope_of, standing_of};
use crate::site::Site;
use evo_base::{Key, List, Place};
use evo_declarations::Listed;
use evo_keys::{Bases, key_of, owner_key};
use evo_meeting::name_of;
use evo_members::Space;
use evo_resolved::{RDecl, RDeclKind, Standing, copy_list};
use evo_tree::{Attr, Modifier};
use evo_type_names::Known;
use std::alloc::{AllocError, Global};

/// The words before a declaration, its keys, and what it stands in.
#[derive(Drop)]
pub(crate) struct Placed {
    pub attrs: List<Attr>,
    pub modifiers: List<Modifier>,
    pub key: Key,
    pub own: Key,
    pub standing: Standing,
}

fn declared_key(alloc: Global, bases: Bases<'_>, listed: &Listed<'_>) -> Result<Key, Gap>
    requires { AreBases bases }
    ensures { Resolves result (λ k. keys.key_of (declared_in (world_with bases.entry) (entry_view listed.now)) ≡ Some k) (IsUnresolved (declared_in (world_with bases.entry) (entry_view listed.now))) }
{
    match key_of(alloc, bases, listed) {
        Ok(Some(found)) => Ok(found),
        Ok(None) => Err(Gap::Unknown),
        Err(_) => Err(Gap::Memory),
    }
}

fn body_owner(alloc: Global, bases: Bases<'_>, listed: &Listed<'_>) -> Result<Key, Gap>
    ensures { Resolves result (λ k. bodies.owner_key (declared_in (world_with bases.entry) (entry_view listed.now)) (entry_view listed.now).kind ≡ Some k) (IsUnresolved (declared_in (world_with bases.entry) (entry_view listed.now))) }
{
    match owner_key(alloc, bases.world(), listed) {
        Ok(Some(found)) => Ok(found),
        Ok(None) => Err(Gap::Unknown),
        Err(_) => Err(Gap::Memory),
    }
}

fn declared_standing(alloc: Global, bases: Bases<'_>, listed: &Listed<'_>) -> Result<Standing, Gap>
    ensures { Resolves result (λ s. resolved.standing_of (world_with bases.entry) (entry_view listed.now).within ≡ Some s) (IsUnresolved (declared_in (world_with bases.entry) (entry_view listed.now))) }
{
    match standing_of(alloc, bases.world(), listed.within) {
        Ok(Some(found)) => Ok(found),
        Ok(None) => Err(Gap::Unknown),
        Err(_) => Err(Gap::Memory),
    }
}

fn keyed(alloc: Global, bases: Bases<'_>, listed: &Listed<'_>) -> Result<Placed, Gap>
    requires { AreBases bases }
    ensures { Resolves result (IsPlaced (declared_in (world_with bases.entry) (entry_view listed.now))) (IsUnresolved (declared_in (world_with bases.entry) (entry_view listed.now))) }
{
    let attrs = copy_list(alloc, &listed.decl.attrs)?;
    let modifiers = copy_list(alloc, &listed.decl.modifiers)?;
    let key = declared_key(alloc, bases, listed)?;
    let own = body_owner(alloc, bases, listed)?;
    let standing = declared_standing(alloc, bases, listed)?;
    Ok(Placed {
        attrs,
        modifiers,
        key,
        own,
        standing,
    })
}

fn name_place(listed: &Listed<'_>) -> Place
    ensures { result ≡ resolved.name_place (entry_view listed.now) }
{
    match name_of(listed) {
        Some(name) => name.place,
        None => listed.decl.place,
    }
}

fn declared_kind<'a>(
    alloc: Global,
    space: &'a Space<'a>,
    known: &'a [Known<'a>],
    listed: &'a Listed<'a>,
) -> Result<RDeclKind, Gap>
    requires few { length (names.generics_of (entry_view listed.now).kind) ≤ 4 }
    requires known { AllKnown (world_of space.now.world) known.now }
    ensures { Resolves result (IsKind (declared_in (world_of space.now.world) (entry_view listed.now)) (entry_view listed.now).kind) (IsUnresolved (declared_in (world_of space.now.world) (entry_view listed.now))) }
{
    let site = Site {
        space,
        known,
        scope: scope_of(space.world, listed),
    };
    let found = kind_of(alloc, site, listed)?;
    Ok(found)
}

fn assembled(listed: &Listed<'_>, placed: Placed, kind: RDeclKind) -> RDecl
    ensures { result ≡ assembled_of (entry_view listed.now) placed kind }
{
    RDecl {
        place: listed.decl.place,
        name_place: name_place(listed),
        key: placed.key,
        own: placed.own,
        standing: placed.standing,
        attrs: placed.attrs,
        modifiers: placed.modifiers,
        kind,
    }
}

fn resolve<'a>(
    alloc: Global,
    space: &'a Space<'a>,
    known: &'a [Known<'a>],
    bases: Bases<'a>,
    listed: &'a Listed<'a>,
) -> Result<RDecl, Gap>
    requires few { length (names.generics_of (entry_view listed.now).kind) ≤ 4 }
    requires known { AllKnown (world_of space.now.world) known.now }
    requires bases { AreBases bases }
    requires same { world_with bases ≡ world_of space.now.world }
    ensures { Resolves result (IsDeclared (declared_in (world_of space.now.world) (entry_view listed.now))) (IsUnresolved (declared_in (world_of space.now.world) (entry_view listed.now))) }
{
    let placed = keyed(alloc, bases, listed)?;
    let kind = declared_kind(alloc, space, known, listed)?;
    Ok(assembled(listed, placed, kind))
}

/// A declaration of the module, once the names of its header are resolved; nothing where one of them is none. It has at
/// most 4 generic parameters.
pub fn declared_of<'a>(
    alloc: Global,
    space: &'a Space<'a>,
    known: &'a [Known<'a>],
    bases: Bases<'a>,
    listed: &'a Listed<'a>,
) -> Result<Option<RDecl>, AllocError>
    requires few { length (names.generics_of (entry_view listed.now).kind) ≤ 4 }
    requires known { AllKnown (world_of space.now.world) known.now }
    requires bases { AreBases bases }
    requires same { world_with bases ≡ world_of space.now.world }
    ensures { IfOk result (λ o. MatchOption o (IsUnresolved (declared_in (world_of space.now.world) (entry_view listed.now))) (IsDeclared (declared_in (world_of space.now.world) (entry_view listed.now)))) }
{
    match resolve(alloc, space, known, bases, listed) {
        Ok(decl) => Ok(Some(decl)),
        Err(Gap::Unknown) => Ok(None),
        Err(Gap::Memory) => Err(AllocError),
    }
}
