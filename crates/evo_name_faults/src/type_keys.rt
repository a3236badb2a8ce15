//! Whether what is declared is a type.

ghost use Rattle.std.specs.Prelude.{◌≡◌, slice_get};
ghost use Rattle.std.specs.Option.{option_and_then};
ghost use Rattle.evo_declarations.specs.Views.{entry_view, key_of_type};
ghost use Rattle.evo_declarations.specs.Worlds.{world_of};
ghost use Rattle.evo_name_faults.specs.Conformances as spec;
ghost use Rattle.evo_names.specs.Faults as faults;
ghost use Rattle.evo_names.specs.Heads as heads;

use evo_declarations::{Listed, TypeId, World, alone};
use evo_tree::{DeclKind, NominalKind};

fn is_protocol(kind: NominalKind) -> bool
    ensures { result ≡ heads.is_protocol kind }
{
    matches!(kind, NominalKind::Protocol)
}

fn type_by(world: World<'_>, ty: TypeId<'_>, listed: &Listed<'_>) -> Option<bool>
    ensures { result ≡ spec.type_by (world_of world.entry) (key_of_type ty.entry) (entry_view listed.now) }
{
    let own = world.own;
    match &listed.decl.kind {
        DeclKind::Nominal(kind, name, _, _) => {
            if own.listing.name.as_slice() == ty.module && name.text.as_slice() == ty.base {
                Some(!is_protocol(*kind))
            } else {
                None
            }
        }
        _ => None,
    }
}

fn type_at(world: World<'_>, ty: TypeId<'_>, number: usize) -> Option<bool>
    ensures { result ≡ option_and_then (spec.type_by (world_of world.entry) (key_of_type ty.entry)) (slice_get (world_of world.entry).own.entries number) }
{
    let own = world.own;
    let listed = own.listing.entries.get(number)?;
    type_by(world, ty, listed)
}

/// Of what declares it in the module itself, whether that is a type.
fn type_in(world: World<'_>, ty: TypeId<'_>) -> Option<bool>
    ensures { result ≡ spec.type_in (world_of world.entry) (key_of_type ty.entry) }
{
    let own = world.own;
    let numbers = own.types_named(ty.base);
    for &number in numbers {
        if let Some(found) = type_at(world, ty, number) {
            return Some(found);
        }
    }
    None
}

fn imported_type(world: World<'_>, ty: TypeId<'_>) -> Option<bool>
    ensures { result ≡ spec.imported_type (world_of world.entry) (key_of_type ty.entry) }
{
    match world.imported {
        Some(names) => type_in(alone(names), ty),
        None => None,
    }
}

/// Whether it is a type, and no protocol. The language's types are declared nowhere.
#[tactic(auto, using(crate::proofs::TypeKeys::key_told))]
pub(crate) fn is_type_key(world: World<'_>, ty: TypeId<'_>) -> bool
    ensures { result ≡ faults.is_type_key (world_of world.entry) (key_of_type ty.entry) }
{
    match imported_type(world, ty) {
        Some(found) => found,
        None => match type_in(world, ty) {
            Some(found) => found,
            None => true,
        },
    }
}
