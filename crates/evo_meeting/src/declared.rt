//! The names of a module's declarations.

ghost use Rattle.std.specs.Prelude.{◌≡◌, ◌++◌, IfOk, OnOk};
ghost use Rattle.std.specs.Option.{option_map};
ghost use Rattle.evo_declarations.specs.Views.{entry_view, within_of};
ghost use Rattle.evo_declarations.specs.Worlds.{world_of};
ghost use Rattle.evo_meeting.specs.DeclaredNames.{context_view, declaration_view, memberwise_view, names_of};
ghost use Rattle.evo_meeting.specs.Spots.{spot_view, spot_views};
ghost use Rattle.evo_names.specs.Keys as keys;
ghost use Rattle.evo_names.specs.Listed.{list_of};

use crate::memberwise::memberwise_labels;
use crate::named::{
    in_extension, is_requirement, is_static, labels_of, name_of, overrides, sort_of,
};
use crate::spot::{Context, Spot};
use evo_declarations::{Listed, TypeId, Within, World, owner_of};
use evo_names::Sort;
use evo_tree::{DeclKind, Identifier, NominalKind};
use std::alloc::{AllocError, Global};

/// What a declaration stands in; nothing where that is an extension of what is no type or protocol.
pub fn context_of<'a>(world: World<'a>, within: Within<'a>) -> Option<Context<'a>>
    ensures { context_view result ≡ keys.context_of (world_of world.entry) (within_of within.entry) }
{
    let own = world.own;
    let module = own.listing.name;
    match within {
        Within::Top => Some(Context::Module(module)),
        Within::Braces(_, name) => Some(Context::Type(TypeId::of(module, name))),
        Within::Extension(_) => match owner_of(world, within) {
            Some(head) => Some(Context::Type(head.key)),
            None => None,
        },
    }
}

/// A declaration by its name.
#[tactic(auto, unfolding(evo_names::specs::Keys::declared_name))]
pub fn declared_name<'a>(
    alloc: Global,
    world: World<'a>,
    listed: &Listed<'a>,
) -> Result<Option<Spot<'a>>, AllocError>
    ensures { IfOk result (λ o. option_map spot_view o ≡ keys.declared_name (declaration_view world.entry listed.now)) }
{
    let Some(name) = name_of(listed) else {
        return Ok(None);
    };
    let Some(context) = context_of(world, listed.within) else {
        return Ok(None);
    };
    let labels = labels_of(alloc, listed)?;
    let own = world.own;
    let sort = sort_of(listed);
    Ok(Some(Spot {
        place: name.place,
        module: own.listing.name.as_slice(),
        context,
        base: name.text,
        labels,
        sort,
        requirement: is_requirement(listed.within, sort),
        extends: in_extension(listed.within),
        is_static: is_static(listed),
        overrides: overrides(listed),
    }))
}

fn memberwise_of<'a>(
    alloc: Global,
    world: World<'a>,
    name: &'a Identifier,
) -> Result<Option<Spot<'a>>, AllocError>
    ensures { IfOk result (λ o. option_map spot_view o ≡ memberwise_view (world_of world.entry) name.now) }
{
    let own = world.own;
    let Some(labels) = memberwise_labels(alloc, &own.listing, name.text.as_slice())? else {
        return Ok(None);
    };
    let module = own.listing.name;
    Ok(Some(Spot {
        place: name.place,
        module: module.as_slice(),
        context: Context::Type(TypeId::of(module, &name.text)),
        base: b"init".as_slice(),
        labels: Some(labels),
        sort: Sort::Initialiser,
        requirement: false,
        extends: false,
        is_static: false,
        overrides: false,
    }))
}

/// The initialiser that a struct has without writing it.
fn memberwise<'a>(
    alloc: Global,
    world: World<'a>,
    listed: &Listed<'a>,
) -> Result<Option<Spot<'a>>, AllocError>
    ensures { IfOk result (λ o. option_map spot_view o ≡ keys.memberwise_by (world_of world.entry) (entry_view listed.now).kind) }
{
    match &listed.decl.kind {
        DeclKind::Nominal(NominalKind::Struct, name, _, _) => memberwise_of(alloc, world, name),
        _ => Ok(None),
    }
}

fn push_spot<'a>(spots: &mut Vec<Spot<'a>>, spot: Option<Spot<'a>>) -> Result<(), AllocError>
    ensures { OnOk result (spot_views spots.new.items ≡ spot_views spots.old.items ++ list_of (option_map spot_view spot.entry)) }
{
    match spot {
        Some(spot) => {
            spots.push(spot)?;
            Ok(())
        }
        None => Ok(()),
    }
}

/// Puts a declaration behind others, where it has a name.
pub fn push_declared_name<'a>(
    alloc: Global,
    spots: &mut Vec<Spot<'a>>,
    world: World<'a>,
    listed: &Listed<'a>,
) -> Result<(), AllocError>
    ensures { OnOk result (spot_views spots.new.items ≡ spot_views spots.old.items ++ list_of (keys.declared_name (declaration_view world.entry listed.now))) }
{
    push_spot(spots, declared_name(alloc, world, listed)?)
}

fn push_names<'a>(
    alloc: Global,
    spots: &mut Vec<Spot<'a>>,
    world: World<'a>,
    listed: &Listed<'a>,
) -> Result<(), AllocError>
    ensures { OnOk result (spot_views spots.new.items ≡ spot_views spots.old.items ++ keys.names_by (declaration_view world.entry listed.now)) }
{
    push_declared_name(alloc, spots, world, listed)?;
    push_spot(spots, memberwise(alloc, world, listed)?)
}

fn push_all<'a>(
    alloc: Global,
    spots: &mut Vec<Spot<'a>>,
    world: World<'a>,
    entries: &[Listed<'a>],
) -> Result<(), AllocError>
    ensures { OnOk result (spot_views spots.new.items ≡ spot_views spots.old.items ++ names_of world.entry entries.now) }
{
    for listed in entries {
        push_names(alloc, spots, world, listed)?;
    }
    Ok(())
}

/// Puts the declarations of the module that have a name behind others, a struct before the initialiser that it has
/// without writing it.
pub fn push_declared_names<'a>(
    alloc: Global,
    spots: &mut Vec<Spot<'a>>,
    world: World<'a>,
) -> Result<(), AllocError>
    ensures { OnOk result (spot_views spots.new.items ≡ spot_views spots.old.items ++ keys.declared_names (world_of world.entry)) }
{
    let own = world.own;
    push_all(alloc, spots, world, own.listing.entries.as_slice())?;
    Ok(())
}
