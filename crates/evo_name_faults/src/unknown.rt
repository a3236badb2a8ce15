//! Names that are none.

ghost use Rattle.std.specs.Prelude.{◌≡◌, flat_map};
ghost use Rattle.evo_declarations.specs.Views.{entries_of, entry_view};
ghost use Rattle.evo_declarations.specs.Worlds.{world_of};
ghost use Rattle.evo_name_faults.specs.Unknown as spec;
ghost use Rattle.evo_names.specs.Faults as faults;
ghost use Rattle.evo_names.specs.Heads as heads;

use evo_base::Place;
use evo_declarations::{Listed, World, class_named, head_of, protocol_named};
use evo_tree::{
    DeclKind, GenericParameter, Header, Identifier, NominalKind, Requirement, TypeName,
};

fn is_library(world: World<'_>, name: &[u8]) -> bool
    ensures { result ≡ spec.is_library (world_of world.entry) name.now }
{
    match world.imported {
        Some(names) => names.listing.name.as_slice() == name,
        None => false,
    }
}

fn is_imported(world: World<'_>, name: &[u8]) -> bool
    ensures { result ≡ faults.is_imported (world_of world.entry) name.now }
{
    name == b"Swift".as_slice() || is_library(world, name)
}

fn unknown_import(world: World<'_>, imports: &[Identifier]) -> Option<Place>
    ensures { result ≡ heads.first_some (spec.import_in (world_of world.entry)) imports.now }
{
    for name in imports {
        if !is_imported(world, name.text.as_slice()) {
            return Some(name.place);
        }
    }
    None
}

fn extended_in(world: World<'_>, listed: &Listed<'_>) -> Option<Place>
    ensures { result ≡ spec.extended_in (world_of world.entry) (entry_view listed.now).kind }
{
    match &listed.decl.kind {
        DeclKind::Extension(extended, _, _) => match head_of(world, extended.names.as_slice()) {
            Some(_) => None,
            None => Some(extended.place),
        },
        _ => None,
    }
}

fn no_protocol(world: World<'_>, name: &TypeName) -> Option<Place>
    ensures { result ≡ spec.no_protocol (world_of world.entry) name.now }
{
    match protocol_named(world, name) {
        Some(_) => None,
        None => Some(name.place),
    }
}

fn no_protocols(world: World<'_>, names: &[TypeName]) -> Option<Place>
    ensures { result ≡ spec.no_protocols (world_of world.entry) names.now }
{
    for name in names {
        if let Some(place) = no_protocol(world, name) {
            return Some(place);
        }
    }
    None
}

fn no_superclass(world: World<'_>, name: &TypeName) -> Option<Place>
    ensures { result ≡ spec.names_class (world_of world.entry) name.now }
{
    match class_named(world, name) {
        Some(_) => None,
        None => no_protocol(world, name),
    }
}

/// The first name behind a class's own may be its superclass.
fn behind_class(world: World<'_>, names: &[TypeName]) -> Option<Place>
    ensures { result ≡ spec.behind_class (world_of world.entry) names.now }
{
    match names {
        [] => None,
        [first, others @ ..] => match no_superclass(world, first) {
            Some(place) => Some(place),
            None => no_protocols(world, others),
        },
    }
}

fn in_generics(world: World<'_>, generics: &[GenericParameter]) -> Option<Place>
    ensures { result ≡ spec.in_generics (world_of world.entry) generics.now }
{
    for generic in generics {
        if let Some(place) = no_protocols(world, generic.protocols.as_slice()) {
            return Some(place);
        }
    }
    None
}

fn in_requirement(world: World<'_>, requirement: &Requirement) -> Option<Place>
    ensures { result ≡ spec.in_requirement (world_of world.entry) requirement.now }
{
    match requirement {
        Requirement::Conforms(_, protocols) => no_protocols(world, protocols.as_slice()),
        Requirement::Same(_, _, _) => None,
    }
}

fn in_requirements(world: World<'_>, requirements: &[Requirement]) -> Option<Place>
    ensures { result ≡ spec.in_requirements (world_of world.entry) requirements.now }
{
    for requirement in requirements {
        if let Some(place) = in_requirement(world, requirement) {
            return Some(place);
        }
    }
    None
}

fn in_header(world: World<'_>, header: &Header) -> Option<Place>
    ensures { result ≡ spec.in_header (world_of world.entry) header.now }
{
    match in_generics(world, header.generics.as_slice()) {
        Some(place) => Some(place),
        None => in_requirements(world, header.requirements.as_slice()),
    }
}

fn protocol_in(world: World<'_>, listed: &Listed<'_>) -> Option<Place>
    ensures { result ≡ spec.protocol_in (world_of world.entry) (entry_view listed.now).kind }
{
    match &listed.decl.kind {
        DeclKind::Function(_, header, _) => in_header(world, header),
        DeclKind::Initialiser(header, _) => in_header(world, header),
        DeclKind::AssociatedType(_, protocols, _) => no_protocols(world, protocols.as_slice()),
        DeclKind::Nominal(NominalKind::Class, _, inherited, _) => {
            behind_class(world, inherited.as_slice())
        }
        DeclKind::Nominal(_, _, inherited, _) => no_protocols(world, inherited.as_slice()),
        DeclKind::Extension(_, inherited, _) => no_protocols(world, inherited.as_slice()),
        _ => None,
    }
}

fn unknown_in(world: World<'_>, listed: &Listed<'_>) -> Option<Place>
    ensures { result ≡ spec.unknown_in (world_of world.entry) (entry_view listed.now) }
{
    match extended_in(world, listed) {
        Some(place) => Some(place),
        None => protocol_in(world, listed),
    }
}

fn first_unknown(world: World<'_>, entries: &[Listed<'_>]) -> Option<Place>
    ensures { result ≡ heads.first_some (spec.unknown_in (world_of world.entry)) (entries_of entries.now) }
{
    for listed in entries {
        if let Some(place) = unknown_in(world, listed) {
            return Some(place);
        }
    }
    None
}

/// The place of a name that is none: of an import, of what is extended, or where a protocol is to stand.
#[tactic(auto, unfolding(crate::specs::Unknown::unknown_name))]
pub fn unknown_name(world: World<'_>) -> Option<Place>
    ensures { result ≡ spec.unknown_name (world_of world.entry) }
{
    let own = world.own;
    match unknown_import(world, own.listing.imports) {
        Some(place) => Some(place),
        None => first_unknown(world, own.listing.entries.as_slice()),
    }
}
