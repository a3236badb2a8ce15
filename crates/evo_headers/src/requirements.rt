//! Requirements of signatures.

ghost use Rattle.std.specs.Prelude.{◌≡◌, ◌∷◌, [], IfOk, flat_map, map};
ghost use Rattle.evo_headers.specs.Added.{Adds};
ghost use Rattle.evo_headers.specs.Gaps.{Resolves};
ghost use Rattle.evo_headers.specs.Sites.{IsOwn, site_scope};
ghost use Rattle.evo_headers.specs.Subjects.{IsGenericOf, IsKnown, generic_name, subject_types, subject_view};
ghost use Rattle.evo_headers.specs.Unresolved.{IsVoid, Lacks, One};
ghost use Rattle.evo_names.specs.Faults.{header_protocols, requirement_protocols, requirement_types};
ghost use Rattle.evo_names.specs.Resolved as resolved;
ghost use Rattle.evo_names.specs.Resolved.{IsRequirement, IsType, Pairs};

use crate::gap::{Gap, push};
use crate::references::protocol_of;
use crate::site::Site;
use crate::types::{meaning, type_of};
use evo_base::{List, Name, Place};
use evo_resolved::{RRequirement, RTypeName};
use evo_tree::{GenericParameter, Header, Requirement, TypeName};
use std::alloc::{AllocError, Global};

/// What conforms by a requirement.
#[derive(Clone, Copy)]
pub(crate) enum Subject<'a> {
    Generic(&'a GenericParameter),
    Written(&'a TypeName),
}

fn one_name(alloc: Global, name: &Name) -> Result<Vec<Name>, AllocError>
    ensures { IfOk result (λ names. names.items ≡ name.now ∷ []) }
{
    let mut names = Vec::new(alloc);
    names.push(name.copy(alloc)?)?;
    Ok(names)
}

/// The type of a generic parameter, where it is used.
fn generic_type(alloc: Global, site: Site<'_>, generic: &GenericParameter) -> Result<RTypeName, Gap>
    requires own { IsOwn site }
    requires among { IsGenericOf site generic.now.name.text }
    ensures { Resolves result (IsType (site_scope site.entry) (generic_name generic.now)) ⊥ }
{
    let names = one_name(alloc, &generic.name.text)?;
    match meaning(alloc, site, names.as_slice()) {
        Ok(Some(found)) => Ok(RTypeName {
            place: generic.name.place,
            aliases: List::from_vec(found.aliases),
            ty: found.resolved,
        }),
        Ok(None) => unreachable!(),
        Err(_) => Err(Gap::Memory),
    }
}

fn subject_type(alloc: Global, site: Site<'_>, subject: Subject<'_>) -> Result<RTypeName, Gap>
    requires own { IsOwn site }
    requires among { IsKnown site subject }
    ensures { Resolves result (IsType (site_scope site.entry) (subject_view subject.entry)) (One (IsVoid (site_scope site.entry)) (subject_types subject.entry)) }
{
    match subject {
        Subject::Generic(generic) => generic_type(alloc, site, generic),
        Subject::Written(written) => type_of(alloc, site, written),
    }
}

fn push_conformance(
    alloc: Global,
    site: Site<'_>,
    found: &mut Vec<RRequirement>,
    subject: Subject<'_>,
    protocol: &TypeName,
) -> Result<(), Gap>
    requires own { IsOwn site }
    requires among { IsKnown site subject }
    ensures { Resolves result (λ u. Adds (IsRequirement (site_scope site.entry)) (resolved.conforms (subject_view subject.entry) protocol.now ∷ []) found.old.items found.new.items) (Lacks (site_scope site.entry) (subject_types subject.entry) (protocol.now ∷ [])) }
{
    let conforming = subject_type(alloc, site, subject)?;
    let reference = protocol_of(alloc, site, protocol)?;
    push(found, RRequirement::Conforms(conforming, reference))?;
    Ok(())
}

fn push_conformances(
    alloc: Global,
    site: Site<'_>,
    found: &mut Vec<RRequirement>,
    subject: Subject<'_>,
    protocols: &[TypeName],
) -> Result<(), Gap>
    requires own { IsOwn site }
    requires among { IsKnown site subject }
    ensures { Resolves result (λ u. Adds (IsRequirement (site_scope site.entry)) (map (resolved.conforms (subject_view subject.entry)) protocols.now) found.old.items found.new.items) (Lacks (site_scope site.entry) (subject_types subject.entry) protocols.now) }
{
    for protocol in protocols {
        push_conformance(alloc, site, found, subject, protocol)?;
    }
    Ok(())
}

fn push_generics(
    alloc: Global,
    site: Site<'_>,
    found: &mut Vec<RRequirement>,
    generics: &[GenericParameter],
) -> Result<(), Gap>
    requires own { IsOwn site }
    requires theirs { (site_scope site).generics ≡ map (λ g. g.name.text) generics.now }
    ensures { Resolves result (λ u. Adds (IsRequirement (site_scope site.entry)) (flat_map resolved.of_generic generics.now) found.old.items found.new.items) (Lacks (site_scope site.entry) [] (flat_map (λ g. g.protocols) generics.now)) }
{
    for generic in generics {
        push_conformances(
            alloc,
            site,
            found,
            Subject::Generic(generic),
            generic.protocols.as_slice(),
        )?;
    }
    Ok(())
}

fn push_same(
    alloc: Global,
    site: Site<'_>,
    found: &mut Vec<RRequirement>,
    left: &TypeName,
    place: Place,
    right: &TypeName,
) -> Result<(), Gap>
    requires { IsOwn site }
    ensures { Resolves result (λ u. Adds (IsRequirement (site_scope site.entry)) (resolved.same left.now place right.now ∷ []) found.old.items found.new.items) (Lacks (site_scope site.entry) (left.now ∷ right.now ∷ []) []) }
{
    let first = type_of(alloc, site, left)?;
    let second = type_of(alloc, site, right)?;
    push(found, RRequirement::Same(first, place, second))?;
    Ok(())
}

fn push_requirement(
    alloc: Global,
    site: Site<'_>,
    found: &mut Vec<RRequirement>,
    requirement: &Requirement,
) -> Result<(), Gap>
    requires { IsOwn site }
    ensures { Resolves result (λ u. Adds (IsRequirement (site_scope site.entry)) (resolved.of_where requirement.now) found.old.items found.new.items) (Lacks (site_scope site.entry) (requirement_types requirement.now) (requirement_protocols requirement.now)) }
{
    match requirement {
        Requirement::Conforms(subject, protocols) => push_conformances(
            alloc,
            site,
            found,
            Subject::Written(subject),
            protocols.as_slice(),
        ),
        Requirement::Same(left, place, right) => push_same(alloc, site, found, left, *place, right),
    }
}

fn push_requirements(
    alloc: Global,
    site: Site<'_>,
    found: &mut Vec<RRequirement>,
    requirements: &[Requirement],
) -> Result<(), Gap>
    requires { IsOwn site }
    ensures { Resolves result (λ u. Adds (IsRequirement (site_scope site.entry)) (flat_map resolved.of_where requirements.now) found.old.items found.new.items) (Lacks (site_scope site.entry) (flat_map requirement_types requirements.now) (flat_map requirement_protocols requirements.now)) }
{
    for requirement in requirements {
        push_requirement(alloc, site, found, requirement)?;
    }
    Ok(())
}

/// The requirements of a header, those of its generic parameters first.
pub(crate) fn requirements_of(
    alloc: Global,
    site: Site<'_>,
    header: &Header,
) -> Result<List<RRequirement>, Gap>
    requires own { IsOwn site }
    requires theirs { (site_scope site).generics ≡ map (λ g. g.name.text) header.now.generics }
    ensures { Resolves result (Pairs (IsRequirement (site_scope site.entry)) (resolved.written_requirements header.now)) (Lacks (site_scope site.entry) (flat_map requirement_types header.now.requirements) (header_protocols header.now)) }
{
    let mut found = Vec::new(alloc);
    push_generics(alloc, site, &mut found, header.generics.as_slice())?;
    push_requirements(alloc, site, &mut found, header.requirements.as_slice())?;
    Ok(List::from_vec(found))
}
