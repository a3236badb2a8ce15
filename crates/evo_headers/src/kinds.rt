//! What is declared, once the names of its header are resolved.

ghost use Rattle.std.specs.Prelude.{◌≡◌, map};
ghost use Rattle.evo_declarations.specs.Views.{entry_view};
ghost use Rattle.evo_headers.specs.Gaps.{Resolves};
ghost use Rattle.evo_headers.specs.Headers.{IsWhole};
ghost use Rattle.evo_headers.specs.Sites.{IsOwn, declaration_at, site_scope, site_world};
ghost use Rattle.evo_headers.specs.Unresolved.{IsUnresolved, Lacks};
ghost use Rattle.evo_names.specs.Faults as faults;
ghost use Rattle.evo_names.specs.Faults.{header_protocols, header_types};
ghost use Rattle.evo_names.specs.Listed as names;
ghost use Rattle.evo_names.specs.Resolved as resolved;
ghost use Rattle.evo_names.specs.Resolved.{IsKind};

use crate::gap::Gap;
use crate::headers::{header_of, payloads_of};
use crate::inherited::{associated, extension, nominal};
use crate::scopes::protocol_of;
use crate::site::Site;
use crate::types::type_of;
use evo_declarations::Listed;
use evo_resolved::{Kept, RDeclKind, RHeader};
use evo_tree::{Accessors, DeclKind, Header};
use std::alloc::Global;

fn kept_as(accessors: &Accessors) -> Kept
    ensures { result ≡ resolved.kept_as accessors.now }
{
    match accessors {
        Accessors::Stored => Kept::Stored,
        Accessors::Get => Kept::Computed(false),
        Accessors::GetSet => Kept::Computed(true),
        Accessors::Block(_) => Kept::Computed(false),
        Accessors::Blocks(_, Some(_)) => Kept::Computed(true),
        Accessors::Blocks(_, None) => Kept::Computed(false),
    }
}

fn called(
    alloc: Global,
    site: Site<'_>,
    listed: &Listed<'_>,
    header: &Header,
) -> Result<RHeader, Gap>
    requires own { IsOwn site }
    requires theirs { (site_scope site).generics ≡ map (λ g. g.name.text) header.now.generics }
    ensures { Resolves result (IsWhole (site_scope site.entry) (resolved.protocol_of (declaration_at site.entry listed.now)) header.now) (Lacks (site_scope site.entry) (header_types header.now) (header_protocols header.now)) }
{
    let space = site.space;
    let protocol = protocol_of(alloc, space.world, listed)?;
    let whole = header_of(alloc, site, header, protocol)?;
    Ok(whole)
}

/// What is declared, in the scope of its header.
pub(crate) fn kind_of(alloc: Global, site: Site<'_>, listed: &Listed<'_>) -> Result<RDeclKind, Gap>
    requires own { IsOwn site }
    requires theirs { site_scope site ≡ faults.scope_of (declaration_at site listed.now) }
    ensures { Resolves result (IsKind (declaration_at site.entry listed.now) (entry_view listed.now).kind) (IsUnresolved (declaration_at site.entry listed.now)) }
{
    match &listed.decl.kind {
        DeclKind::Function(_, header, _) => {
            let header = called(alloc, site, listed, header)?;
            Ok(RDeclKind::Function(header))
        }
        DeclKind::Initialiser(header, _) => {
            let header = called(alloc, site, listed, header)?;
            Ok(RDeclKind::Initialiser(header))
        }
        DeclKind::Property(introducer, _, written, accessors) => {
            let written = type_of(alloc, site, written)?;
            Ok(RDeclKind::Property(*introducer, written, kept_as(accessors)))
        }
        DeclKind::TypeAlias(_, written) => {
            let written = type_of(alloc, site, written)?;
            Ok(RDeclKind::TypeAlias(written))
        }
        DeclKind::AssociatedType(_, protocols, default) => {
            associated(alloc, site, protocols.as_slice(), default)
        }
        DeclKind::Case(_, payloads) => {
            let payloads = payloads_of(alloc, site, payloads.as_slice())?;
            Ok(RDeclKind::Case(payloads))
        }
        DeclKind::Nominal(kind, _, inherited, _) => {
            nominal(alloc, site, *kind, inherited.as_slice())
        }
        DeclKind::Extension(extended, inherited, _) => {
            extension(alloc, site, extended, inherited.as_slice())
        }
    }
}
