//! Names that are taken.

ghost use Rattle.std.specs.Prelude.{◌≡◌};
ghost use Rattle.evo_declarations.specs.Views.{entries_of, entry_view};
ghost use Rattle.evo_declarations.specs.Worlds.{world_of};
ghost use Rattle.evo_name_faults.specs.Twice as spec;
ghost use Rattle.evo_names.specs.Faults as faults;
ghost use Rattle.evo_names.specs.Heads as heads;
ghost use Rattle.evo_names.specs.Listed as names;

use evo_base::Place;
use evo_declarations::{Listed, Within, World};
use evo_meeting::{header_of, name_of};
use evo_tree::{DeclKind, GenericParameter};

fn is_module(world: World<'_>, name: &[u8]) -> bool
    ensures { result ≡ faults.is_module (world_of world.entry) name.now }
{
    let own = world.own;
    name == own.listing.name.as_slice() || name == b"Swift".as_slice()
}

fn is_language_type(name: &[u8]) -> bool
    ensures { result ≡ heads.is_language_type name.now }
{
    name == b"Int".as_slice() || name == b"Bool".as_slice() || name == b"String".as_slice()
}

fn is_function_of_language(name: &[u8]) -> bool
    ensures { result ≡ faults.is_function_of_language name.now }
{
    name == b"print".as_slice()
        || name == b"precondition".as_slice()
        || name == b"fatalError".as_slice()
}

fn is_taken(world: World<'_>, name: &[u8]) -> bool
    ensures { result ≡ faults.is_taken (world_of world.entry) name.now }
{
    is_module(world, name) || is_language_type(name) || is_function_of_language(name)
}

fn taken_in(world: World<'_>, listed: &Listed<'_>) -> Option<Place>
    ensures { result ≡ spec.taken_in (world_of world.entry) (entry_view listed.now) }
{
    if !matches!(listed.within, Within::Top) {
        return None;
    }
    let name = name_of(listed)?;
    if is_taken(world, name.text) {
        Some(name.place)
    } else {
        None
    }
}

fn is_alias(listed: &Listed<'_>) -> bool
    ensures { result ≡ faults.is_alias (entry_view listed.now).kind }
{
    matches!(
        &listed.decl.kind,
        DeclKind::TypeAlias(_, _) | DeclKind::AssociatedType(_, _, _)
    )
}

fn alias_in(world: World<'_>, listed: &Listed<'_>) -> Option<Place>
    ensures { result ≡ spec.alias_in (world_of world.entry) (entry_view listed.now) }
{
    if !is_alias(listed) {
        return None;
    }
    let name = name_of(listed)?;
    if is_module(world, name.text) {
        Some(name.place)
    } else {
        None
    }
}

fn module_generics(world: World<'_>, generics: &[GenericParameter]) -> Option<Place>
    ensures { result ≡ spec.module_generics (world_of world.entry) generics.now }
{
    for generic in generics {
        if is_module(world, generic.name.text.as_slice()) {
            return Some(generic.name.place);
        }
    }
    None
}

fn named_again(first: &GenericParameter, others: &[GenericParameter]) -> Option<Place>
    ensures { result ≡ spec.named_again first.now others.now }
{
    for other in others {
        if first.name.text.as_slice() == other.name.text.as_slice() {
            return Some(other.name.place);
        }
    }
    None
}

fn again_in(generics: &[GenericParameter]) -> Option<Place>
    ensures { result ≡ spec.again_in generics.now }
{
    match generics {
        [] => None,
        [first, others @ ..] => match named_again(first, others) {
            Some(place) => Some(place),
            None => again_in(others),
        },
    }
}

fn generics_in(world: World<'_>, generics: &[GenericParameter]) -> Option<Place>
    ensures { result ≡ spec.generics_in (world_of world.entry) generics.now }
{
    match module_generics(world, generics) {
        Some(place) => Some(place),
        None => again_in(generics),
    }
}

fn declared_generics<'a>(listed: &Listed<'a>) -> &'a [GenericParameter]
    ensures { result.now ≡ names.generics_of (entry_view listed.now).kind }
{
    match header_of(listed) {
        Some(header) => header.generics.as_slice(),
        None => &[],
    }
}

fn twice_in(world: World<'_>, listed: &Listed<'_>) -> Option<Place>
    ensures { result ≡ spec.twice_in (world_of world.entry) (entry_view listed.now) }
{
    if let Some(place) = taken_in(world, listed) {
        return Some(place);
    }
    if let Some(place) = alias_in(world, listed) {
        return Some(place);
    }
    generics_in(world, declared_generics(listed))
}

fn first_taken(world: World<'_>, entries: &[Listed<'_>]) -> Option<Place>
    ensures { result ≡ heads.first_some (spec.twice_in (world_of world.entry)) (entries_of entries.now) }
{
    for listed in entries {
        if let Some(place) = twice_in(world, listed) {
            return Some(place);
        }
    }
    None
}

/// The place of a name that is taken: at top level, of a `typealias` or an associated type, or of a generic parameter.
#[tactic(auto, unfolding(crate::specs::Twice::taken_name))]
pub fn taken_name(world: World<'_>) -> Option<Place>
    ensures { result ≡ spec.taken_name (world_of world.entry) }
{
    let own = world.own;
    first_taken(world, own.listing.entries.as_slice())
}
