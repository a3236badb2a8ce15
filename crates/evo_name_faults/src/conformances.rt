//! The conformances that a module declares, as names in their types.

ghost use Rattle.std.specs.Prelude.{◌≡◌, ◌++◌, IfOk, OnOk};
ghost use Rattle.evo_declarations.specs.Views.{entry_view, entries_of, key_of_type, types_of};
ghost use Rattle.evo_declarations.specs.Worlds.{world_of};
ghost use Rattle.evo_meeting.specs.Spots.{spot_view, spot_views};
ghost use Rattle.evo_name_faults.specs.Conformances as spec;
ghost use Rattle.evo_names.specs.Faults as faults;
ghost use Rattle.evo_names.specs.Heads as heads;

use crate::type_keys::is_type_key;
use evo_base::Place;
use evo_declarations::{Listed, TypeId, World, alone, head_of, protocol_named};
use evo_meeting::{Context, Spot};
use evo_names::Sort;
use evo_tree::{DeclKind, TypeName};
use std::alloc::{AllocError, Global};

/// What is declared or extended.
fn type_of<'a>(world: World<'a>, listed: &Listed<'a>) -> Option<TypeId<'a>>
    ensures { types_of result ≡ spec.type_of (world_of world.entry) (entry_view listed.now).kind }
{
    let own = world.own;
    match &listed.decl.kind {
        DeclKind::Nominal(_, name, _, _) => Some(TypeId::of(own.listing.name, &name.text)),
        DeclKind::Extension(extended, _, _) => match head_of(world, extended.names.as_slice()) {
            Some(head) => Some(head.key),
            None => None,
        },
        _ => None,
    }
}

fn inherit_list<'a>(listed: &Listed<'a>) -> &'a [TypeName]
    ensures { result.now ≡ heads.inherit_list (entry_view listed.now).kind }
{
    match &listed.decl.kind {
        DeclKind::Nominal(_, _, inherited, _) => inherited.as_slice(),
        DeclKind::Extension(_, inherited, _) => inherited.as_slice(),
        _ => &[],
    }
}

fn conformance<'a>(
    alloc: Global,
    place: Place,
    ty: TypeId<'a>,
    protocol: TypeId<'a>,
) -> Result<Spot<'a>, AllocError>
    ensures { IfOk result (λ s. spot_view s ≡ spec.conformance_name (key_of_type ty.entry) place (key_of_type protocol.entry)) }
{
    let mut labels = Vec::new(alloc);
    labels.push(protocol.module)?;
    Ok(Spot {
        place,
        module: ty.module,
        context: Context::Type(ty),
        base: protocol.base,
        labels: Some(labels),
        sort: Sort::Function,
        requirement: false,
        extends: false,
        is_static: false,
        overrides: false,
    })
}

fn push_conformance<'a>(
    alloc: Global,
    spots: &mut Vec<Spot<'a>>,
    world: World<'a>,
    ty: TypeId<'a>,
    name: &'a TypeName,
) -> Result<(), AllocError>
    ensures { OnOk result (spot_views spots.new.items ≡ spot_views spots.old.items ++ spec.name_by (world_of world.entry) (key_of_type ty.entry) name.now) }
{
    match protocol_named(world, name) {
        Some(protocol) => {
            spots.push(conformance(alloc, name.place, ty, protocol)?)?;
            Ok(())
        }
        None => Ok(()),
    }
}

fn push_conformances<'a>(
    alloc: Global,
    spots: &mut Vec<Spot<'a>>,
    world: World<'a>,
    ty: TypeId<'a>,
    names: &'a [TypeName],
) -> Result<(), AllocError>
    ensures { OnOk result (spot_views spots.new.items ≡ spot_views spots.old.items ++ spec.names_by (world_of world.entry) (key_of_type ty.entry) names.now) }
{
    for name in names {
        push_conformance(alloc, spots, world, ty, name)?;
    }
    Ok(())
}

fn push_imported<'a>(
    alloc: Global,
    spots: &mut Vec<Spot<'a>>,
    world: World<'a>,
    listed: &Listed<'a>,
) -> Result<(), AllocError>
    ensures { OnOk result (spot_views spots.new.items ≡ spot_views spots.old.items ++ spec.names_in spec.any_key (world_of world.entry) (entry_view listed.now)) }
{
    match type_of(world, listed) {
        Some(ty) => push_conformances(alloc, spots, world, ty, inherit_list(listed)),
        None => Ok(()),
    }
}

fn push_if_type<'a>(
    alloc: Global,
    spots: &mut Vec<Spot<'a>>,
    world: World<'a>,
    listed: &Listed<'a>,
    ty: TypeId<'a>,
) -> Result<(), AllocError>
    ensures { OnOk result (spot_views spots.new.items ≡ spot_views spots.old.items ++ spec.tested_by (faults.is_type_key (world_of world.entry)) (world_of world.entry) (entry_view listed.now) (key_of_type ty.entry)) }
{
    if is_type_key(world, ty) {
        return push_conformances(alloc, spots, world, ty, inherit_list(listed));
    }
    Ok(())
}

fn push_own<'a>(
    alloc: Global,
    spots: &mut Vec<Spot<'a>>,
    world: World<'a>,
    listed: &Listed<'a>,
) -> Result<(), AllocError>
    ensures { OnOk result (spot_views spots.new.items ≡ spot_views spots.old.items ++ spec.names_in (faults.is_type_key (world_of world.entry)) (world_of world.entry) (entry_view listed.now)) }
{
    match type_of(world, listed) {
        Some(ty) => push_if_type(alloc, spots, world, listed, ty),
        None => Ok(()),
    }
}

fn push_all_imported<'a>(
    alloc: Global,
    spots: &mut Vec<Spot<'a>>,
    world: World<'a>,
    entries: &[Listed<'a>],
) -> Result<(), AllocError>
    ensures { OnOk result (spot_views spots.new.items ≡ spot_views spots.old.items ++ spec.all_names spec.any_key (world_of world.entry) (entries_of entries.now)) }
{
    for listed in entries {
        push_imported(alloc, spots, world, listed)?;
    }
    Ok(())
}

fn push_all_own<'a>(
    alloc: Global,
    spots: &mut Vec<Spot<'a>>,
    world: World<'a>,
    entries: &[Listed<'a>],
) -> Result<(), AllocError>
    ensures { OnOk result (spot_views spots.new.items ≡ spot_views spots.old.items ++ spec.all_names (faults.is_type_key (world_of world.entry)) (world_of world.entry) (entries_of entries.now)) }
{
    for listed in entries {
        push_own(alloc, spots, world, listed)?;
    }
    Ok(())
}

/// Puts the conformances that the import declares behind others.
#[tactic(auto, unfolding(crate::specs::Conformances::imported_names))]
pub(crate) fn push_imported_names<'a>(
    alloc: Global,
    spots: &mut Vec<Spot<'a>>,
    world: World<'a>,
) -> Result<(), AllocError>
    ensures { OnOk result (spot_views spots.new.items ≡ spot_views spots.old.items ++ spec.imported_names (world_of world.entry)) }
{
    match world.imported {
        Some(names) => {
            push_all_imported(alloc, spots, alone(names), names.listing.entries.as_slice())
        }
        None => Ok(()),
    }
}

/// Puts the conformances of types that the module declares behind others.
#[tactic(auto, unfolding(crate::specs::Conformances::own_names))]
pub(crate) fn push_own_names<'a>(
    alloc: Global,
    spots: &mut Vec<Spot<'a>>,
    world: World<'a>,
) -> Result<(), AllocError>
    ensures { OnOk result (spot_views spots.new.items ≡ spot_views spots.old.items ++ spec.own_names (world_of world.entry)) }
{
    let own = world.own;
    push_all_own(alloc, spots, world, own.listing.entries.as_slice())
}
