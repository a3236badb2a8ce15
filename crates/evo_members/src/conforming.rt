//! Conformances that are declared.

ghost use Rattle.std.specs.Prelude.{◌≡◌, ◌++◌, IfOk, OnOk, flat_map};
ghost use Rattle.evo_declarations.specs.Views.{key_of_type};
ghost use Rattle.evo_declarations.specs.Worlds.{world_of};
ghost use Rattle.evo_members.specs.Conforming.{conformed_at, conformed_by, conforms_by, protocols_in};
ghost use Rattle.evo_members.specs.Views.{declared_of, keys_of};
ghost use Rattle.evo_names.specs.Heads as heads;
ghost use Rattle.evo_names.specs.Listed as names;
ghost use Rattle.evo_names.specs.Listed.{list_of};

use crate::declared::Declared;
use crate::lookup::{declares, extends};
use crate::space::{Space, inherit_list};
use evo_declarations::{TypeId, World, protocol_named, same_type};
use evo_tree::TypeName;
use std::alloc::{AllocError, Global};

/// Whether a type or protocol is among these.
pub fn is_among(key: TypeId<'_>, keys: &[TypeId<'_>]) -> bool
    ensures { result ≡ heads.is_among (key_of_type key.entry) (keys_of keys.now) }
{
    for other in keys {
        if same_type(*other, key) {
            return true;
        }
    }
    false
}

fn push_protocol<'a>(
    found: &mut Vec<TypeId<'a>>,
    world: World<'a>,
    name: &'a TypeName,
) -> Result<(), AllocError>
    ensures { OnOk result (keys_of found.new.items ≡ keys_of found.old.items ++ list_of (heads.protocol_named (world_of world.entry) name.now)) }
{
    match protocol_named(world, name) {
        Some(protocol) => {
            found.push(protocol)?;
            Ok(())
        }
        None => Ok(()),
    }
}

fn push_protocols<'a>(
    found: &mut Vec<TypeId<'a>>,
    world: World<'a>,
    names: &'a [TypeName],
) -> Result<(), AllocError>
    ensures { OnOk result (keys_of found.new.items ≡ keys_of found.old.items ++ protocols_in (world_of world.entry) names.now) }
{
    for name in names {
        push_protocol(found, world, name)?;
    }
    Ok(())
}

/// Puts the protocols that a declaration names behind others.
pub(crate) fn push_named<'a>(
    found: &mut Vec<TypeId<'a>>,
    world: World<'a>,
    declared: Declared<'a>,
) -> Result<(), AllocError>
    ensures { OnOk result (keys_of found.new.items ≡ keys_of found.old.items ++ heads.protocols_named (declared_of world.entry declared.entry)) }
{
    push_protocols(found, world.at(declared.home), inherit_list(declared))?;
    Ok(())
}

/// Whether it is the type's own declaration, or an extension of it.
fn is_conforming<'a>(world: World<'a>, declared: Declared<'a>, key: TypeId<'_>, own: bool) -> bool
    ensures { result ≡ conforms_by own (key_of_type key.entry) (declared_of world.entry declared.entry) }
{
    if own {
        declares(world, declared, key)
    } else {
        extends(world, declared, key)
    }
}

fn push_number<'a>(
    found: &mut Vec<TypeId<'a>>,
    space: &Space<'a>,
    key: TypeId<'_>,
    own: bool,
    number: usize,
) -> Result<(), AllocError>
    ensures { OnOk result (keys_of found.new.items ≡ keys_of found.old.items ++ conformed_at (world_of space.now.world) own (key_of_type key.entry) number) }
{
    let Some(declared) = space.at(number) else {
        return Ok(());
    };
    if !is_conforming(space.world, declared, key, own) {
        return Ok(());
    }
    push_named(found, space.world, declared)?;
    Ok(())
}

fn push_group<'a>(
    found: &mut Vec<TypeId<'a>>,
    space: &Space<'a>,
    key: TypeId<'_>,
    own: bool,
) -> Result<(), AllocError>
    ensures { OnOk result (keys_of found.new.items ≡ keys_of found.old.items ++ flat_map (conformed_by own (key_of_type key.entry)) (names.declarations (world_of space.now.world))) }
{
    let numbers = space.bases_named(key.base);
    for &number in numbers {
        push_number(found, space, key, own, number)?;
    }
    Ok(())
}

/// The protocols to which a type is declared to conform: in its own header, and in extensions of it.
#[tactic(auto, unfolding(evo_names::specs::Heads::conformances))]
pub fn conformances<'a>(
    alloc: Global,
    space: &Space<'a>,
    key: TypeId<'_>,
) -> Result<Vec<TypeId<'a>>, AllocError>
    ensures { IfOk result (λ found. keys_of found.items ≡ heads.conformances (world_of space.now.world) (key_of_type key.entry)) }
{
    let mut found = Vec::new(alloc);
    push_group(&mut found, space, key, true)?;
    push_group(&mut found, space, key, false)?;
    Ok(found)
}
