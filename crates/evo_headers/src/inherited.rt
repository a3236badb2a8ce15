//! What stands behind the names of types and extensions.

ghost use Rattle.std.specs.Prelude.{◌≡◌, IfOk, true, false};
ghost use Rattle.evo_headers.specs.Gaps.{Resolves};
ghost use Rattle.evo_headers.specs.Inherited.{IsAssociated, IsExtension, IsNominal, NoExtension};
ghost use Rattle.evo_headers.specs.Sites.{IsOwn, site_scope};
ghost use Rattle.evo_headers.specs.Unresolved.{IsNoProtocol, Lacks, One};
ghost use Rattle.evo_names.specs.Heads.{class_named, head_of};
ghost use Rattle.evo_names.specs.Listed.{list_of};
ghost use Rattle.evo_names.specs.Resolved.{Both, IsReference, parted};
ghost use Rattle.std.specs.Option.{option_map, option_map_or};
ghost use Rattle.evo_keys.specs.Texts.{found_text};
ghost use Rattle.evo_tree.specs.declared.declaration.NominalKind.TheVariants as nominal;

use crate::gap::Gap;
use crate::references::protocols_of;
use crate::site::Site;
use crate::types::type_of_option;
use evo_base::Key;
use evo_declarations::class_named;
use evo_keys::{FoundType, class_key, type_named};
use evo_resolved::{RDeclKind, RReference};
use evo_tree::{NominalKind, TypeName};
use std::alloc::{AllocError, Global};

fn class_of(alloc: Global, site: Site<'_>, written: &TypeName) -> Result<Option<Key>, AllocError>
    requires { IsOwn site }
    ensures { IfOk result (λ o. o ≡ class_named (site_scope site.entry).home written.now) }
{
    let space = site.space;
    let key = class_key(alloc, space.world, written)?;
    Ok(key)
}

fn first_class(
    alloc: Global,
    site: Site<'_>,
    inherited: &[TypeName],
) -> Result<Option<RReference>, AllocError>
    requires { IsOwn site }
    ensures { IfOk result (λ o. Both (IsReference (class_named (site_scope site.entry).home)) (parted (site_scope site.entry).home nominal.Class inherited.now).0 o) }
{
    match inherited {
        [] => Ok(None),
        [first, ..] => match class_of(alloc, site, first)? {
            Some(key) => Ok(Some(RReference {
                place: first.place,
                key,
            })),
            None => Ok(None),
        },
    }
}

/// A class's superclass, which is the first name behind its own where that is a class.
fn superclass_of(
    alloc: Global,
    site: Site<'_>,
    kind: NominalKind,
    inherited: &[TypeName],
) -> Result<Option<RReference>, AllocError>
    requires { IsOwn site }
    ensures { IfOk result (λ o. Both (IsReference (class_named (site_scope site.entry).home)) (parted (site_scope site.entry).home kind inherited.now).0 o) }
{
    match kind {
        NominalKind::Class => first_class(alloc, site, inherited),
        _ => Ok(None),
    }
}

fn is_class(site: Site<'_>, written: &TypeName) -> bool
    requires { IsOwn site }
    ensures { result ≡ option_map_or (λ k. true) (class_named (site_scope site.entry).home written.now) false }
{
    let space = site.space;
    match class_named(space.world, written) {
        Some(_) => true,
        None => false,
    }
}

fn behind_class<'a>(site: Site<'_>, inherited: &'a [TypeName]) -> &'a [TypeName]
    requires { IsOwn site }
    ensures { result.now ≡ (parted (site_scope site.entry).home nominal.Class inherited.now).1 }
{
    match inherited {
        [] => &[],
        [first, rest @ ..] => {
            if is_class(site, first) {
                rest
            } else {
                inherited
            }
        }
    }
}

/// The other names behind a type's own.
fn others_behind<'a>(site: Site<'_>, kind: NominalKind, inherited: &'a [TypeName]) -> &'a [TypeName]
    requires { IsOwn site }
    ensures { result.now ≡ (parted (site_scope site.entry).home kind inherited.now).1 }
{
    match kind {
        NominalKind::Class => behind_class(site, inherited),
        _ => inherited,
    }
}

/// A type or protocol, with its superclass and its protocols.
pub(crate) fn nominal(
    alloc: Global,
    site: Site<'_>,
    kind: NominalKind,
    inherited: &[TypeName],
) -> Result<RDeclKind, Gap>
    requires { IsOwn site }
    ensures { Resolves result (IsNominal (site_scope site.entry).home kind inherited.now) (One (IsNoProtocol (site_scope site.entry).home) (parted (site_scope site.entry).home kind inherited.now).1) }
{
    let superclass = superclass_of(alloc, site, kind, inherited)?;
    let protocols = protocols_of(alloc, site, others_behind(site, kind, inherited))?;
    Ok(RDeclKind::Nominal(kind, superclass, protocols))
}

fn extended_type(
    alloc: Global,
    site: Site<'_>,
    written: &TypeName,
) -> Result<Option<FoundType>, AllocError>
    requires { IsOwn site }
    ensures { IfOk result (λ o. o ≡ option_map found_text (head_of (site_scope site.entry).home written.now.names)) }
{
    let space = site.space;
    let found = type_named(alloc, space.world, written)?;
    Ok(found)
}

/// An extension, by what it extends, with its protocols.
pub(crate) fn extension(
    alloc: Global,
    site: Site<'_>,
    extended: &TypeName,
    inherited: &[TypeName],
) -> Result<RDeclKind, Gap>
    requires { IsOwn site }
    ensures { Resolves result (IsExtension (site_scope site.entry).home extended.now inherited.now) (NoExtension (site_scope site.entry).home extended.now inherited.now) }
{
    let protocols = protocols_of(alloc, site, inherited)?;
    match extended_type(alloc, site, extended)? {
        Some(found) => Ok(RDeclKind::Extension(
            found.kind,
            RReference {
                place: extended.place,
                key: found.key,
            },
            protocols,
        )),
        None => Err(Gap::Unknown),
    }
}

/// An associated type, with its protocols and its default.
pub(crate) fn associated(
    alloc: Global,
    site: Site<'_>,
    protocols: &[TypeName],
    default: &Option<TypeName>,
) -> Result<RDeclKind, Gap>
    requires { IsOwn site }
    ensures { Resolves result (IsAssociated (site_scope site.entry) protocols.now default.now) (Lacks (site_scope site.entry) (list_of default.now) protocols.now) }
{
    let references = protocols_of(alloc, site, protocols)?;
    let written = type_of_option(alloc, site, default)?;
    Ok(RDeclKind::AssociatedType(references, written))
}
