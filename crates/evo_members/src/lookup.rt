//! Types and protocols by their keys.

ghost use Rattle.std.specs.Prelude.{◌≡◌};
ghost use Rattle.std.specs.Option.{option_and_then, option_map};
ghost use Rattle.evo_declarations.specs.Views.{entry_view, key_of_type, level_of, types_of};
ghost use Rattle.evo_declarations.specs.Worlds.{home_of, world_of};
ghost use Rattle.evo_members.specs.Sought.{by_number, first_class, if_declares};
ghost use Rattle.evo_members.specs.Views.{declared_of};
ghost use Rattle.evo_names.specs.Heads as heads;
ghost use Rattle.evo_names.specs.Listed as names;
ghost use Rattle.evo_names.specs.Written as written;

use crate::declared::Declared;
use crate::space::Space;
use evo_declarations::{Level, TypeId, World, class_named, head_of, same_type, written_level};
use evo_tree::{DeclKind, NominalKind, TypeName};

/// Whether it is the declaration of the type or protocol.
pub fn declares<'a>(world: World<'a>, declared: Declared<'a>, key: TypeId<'_>) -> bool
    ensures { result ≡ heads.declares (key_of_type key.entry) (declared_of world.entry declared.entry) (entry_view declared.entry.listed).kind }
{
    match &declared.listed.decl.kind {
        DeclKind::Nominal(_, name, _, _) => {
            let home = world.at(declared.home);
            let own = home.own;
            same_type(TypeId::of(own.listing.name, &name.text), key)
        }
        _ => false,
    }
}

/// Whether it is an extension of the type or protocol.
pub fn extends<'a>(world: World<'a>, declared: Declared<'a>, key: TypeId<'_>) -> bool
    ensures { result ≡ heads.extends (key_of_type key.entry) (declared_of world.entry declared.entry) (entry_view declared.entry.listed).kind }
{
    match &declared.listed.decl.kind {
        DeclKind::Extension(extended, _, _) => {
            match head_of(world.at(declared.home), extended.names.as_slice()) {
                Some(head) => same_type(head.key, key),
                None => false,
            }
        }
        _ => false,
    }
}

fn declaring<'a>(space: &Space<'a>, key: TypeId<'_>, number: usize) -> Option<Declared<'a>>
    ensures { option_map (declared_of space.now.world) result ≡ by_number (if_declares (key_of_type key.entry)) (names.declarations (world_of space.now.world)) number }
{
    let declared = space.at(number)?;
    if !declares(space.world, declared, key) {
        return None;
    }
    Some(declared)
}

/// The declaration of a type or protocol.
#[tactic(auto, unfolding(evo_names::specs::Heads::declaration_of))]
pub fn declaration_of<'a>(space: &Space<'a>, key: TypeId<'_>) -> Option<Declared<'a>>
    ensures { option_map (declared_of space.now.world) result ≡ heads.declaration_of (world_of space.now.world) (key_of_type key.entry) }
{
    let numbers = space.bases_named(key.base);
    for &number in numbers {
        if let Some(declared) = declaring(space, key, number) {
            return Some(declared);
        }
    }
    None
}

fn first_class<'a>(world: World<'a>, names: &'a [TypeName]) -> Option<TypeId<'a>>
    ensures { types_of result ≡ first_class (world_of world.entry) names.now }
{
    match names {
        [first, ..] => class_named(world, first),
        [] => None,
    }
}

fn first_inherited<'a>(world: World<'a>, declared: Declared<'a>) -> Option<TypeId<'a>>
    ensures { types_of result ≡ heads.first_inherited (home_of world.entry declared.entry.home) (entry_view declared.entry.listed).kind }
{
    match &declared.listed.decl.kind {
        DeclKind::Nominal(NominalKind::Class, _, inherited, _) => {
            first_class(world.at(declared.home), inherited.as_slice())
        }
        _ => None,
    }
}

/// The superclass of a class.
#[tactic(auto, unfolding(evo_names::specs::Heads::superclass))]
pub fn superclass<'a>(space: &Space<'a>, key: TypeId<'_>) -> Option<TypeId<'a>>
    ensures { types_of result ≡ heads.superclass (world_of space.now.world) (key_of_type key.entry) }
{
    let declared = declaration_of(space, key)?;
    first_inherited(space.world, declared)
}

/// How far a type or protocol is seen.
pub(crate) fn level_of_type(space: &Space<'_>, key: TypeId<'_>) -> Level
    ensures { level_of result ≡ written.level_of (world_of space.now.world) (key_of_type key.entry) }
{
    match declaration_of(space, key) {
        Some(declared) => written_level(&declared.listed),
        None => Level::Public,
    }
}
