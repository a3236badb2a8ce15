//! Protocols with what they inherit.

ghost use Rattle.std.specs.Prelude.{◌≡◌, ◌++◌, IfOk, OnOk, reverse};
ghost use Rattle.evo_declarations.specs.Views.{key_of_type};
ghost use Rattle.evo_declarations.specs.Worlds.{world_of};
ghost use Rattle.evo_members.specs.Inheriting.{IsVisited, keys_left};
ghost use Rattle.evo_members.specs.Views.{keys_of};
ghost use Rattle.evo_names.specs.Heads as heads;

use crate::conforming::{is_among, push_named};
use crate::lookup::declaration_of;
use crate::space::Space;
use evo_declarations::TypeId;
use std::alloc::{AllocError, Global};

/// The protocols that a protocol names behind its own name.
fn inherited<'a>(
    alloc: Global,
    space: &Space<'a>,
    protocol: TypeId<'a>,
) -> Result<Vec<TypeId<'a>>, AllocError>
    ensures { IfOk result (λ found. keys_of found.items ≡ heads.inherited (world_of space.now.world) (key_of_type protocol.entry)) }
{
    let mut found = Vec::new(alloc);
    match declaration_of(space, protocol) {
        Some(declared) => {
            push_named(&mut found, space.world, declared)?;
            Ok(found)
        }
        None => Ok(found),
    }
}

/// Moves all of these on others, the last one first.
fn move_reversed<'a>(
    left: &mut Vec<TypeId<'a>>,
    named: &mut Vec<TypeId<'a>>,
) -> Result<(), AllocError>
    ensures { OnOk result (left.new.items ≡ left.old.items ++ reverse named.old.items) }
{
    while let Some(protocol) = named.pop() {
        left.push(protocol)?;
    }
    Ok(())
}

fn push_inherited<'a>(
    alloc: Global,
    left: &mut Vec<TypeId<'a>>,
    space: &Space<'a>,
    protocol: TypeId<'a>,
) -> Result<(), AllocError>
    ensures { OnOk result (keys_left left.new.items ≡ heads.inherited (world_of space.now.world) (key_of_type protocol.entry) ++ keys_left left.old.items) }
{
    let mut named = inherited(alloc, space, protocol)?;
    move_reversed(left, &mut named)?;
    Ok(())
}

/// Takes the next protocol from those that are left; where it is new, it is found, and what it inherits comes next.
fn visit<'a>(
    alloc: Global,
    found: &mut Vec<TypeId<'a>>,
    left: &mut Vec<TypeId<'a>>,
    space: &Space<'a>,
) -> Result<(), AllocError>
    ensures { OnOk result (IsVisited (world_of space.now.world) 1 (keys_of found.old.items) (keys_left left.old.items) (keys_of found.new.items) (keys_left left.new.items)) }
{
    let Some(protocol) = left.pop() else {
        return Ok(());
    };
    if is_among(protocol, found.as_slice()) {
        return Ok(());
    }
    found.push(protocol)?;
    push_inherited(alloc, left, space, protocol)?;
    Ok(())
}

fn visit_times<'a>(
    alloc: Global,
    found: &mut Vec<TypeId<'a>>,
    left: &mut Vec<TypeId<'a>>,
    space: &Space<'a>,
    times: usize,
) -> Result<(), AllocError>
    ensures { OnOk result (IsVisited (world_of space.now.world) times (keys_of found.old.items) (keys_left left.old.items) (keys_of found.new.items) (keys_left left.new.items)) }
{
    for _step in 0..times {
        visit(alloc, found, left, space)?;
    }
    Ok(())
}

fn copies<'a>(alloc: Global, keys: &[TypeId<'a>]) -> Result<Vec<TypeId<'a>>, AllocError>
    ensures { IfOk result (λ found. found.items ≡ keys.now) }
{
    let mut found = Vec::new(alloc);
    for key in keys {
        found.push(*key)?;
    }
    Ok(found)
}

fn reversed<'a>(alloc: Global, keys: &[TypeId<'a>]) -> Result<Vec<TypeId<'a>>, AllocError>
    ensures { IfOk result (λ found. keys_left found.items ≡ keys_of keys.now) }
{
    let mut left = Vec::new(alloc);
    let mut named = copies(alloc, keys)?;
    move_reversed(&mut left, &mut named)?;
    Ok(left)
}

/// Protocols with all that they inherit, each once, a protocol before what it inherits, in source order.
#[tactic(auto, unfolding(evo_names::specs::Heads::closure))]
pub fn closure<'a>(
    alloc: Global,
    space: &Space<'a>,
    protocols: &[TypeId<'a>],
) -> Result<Vec<TypeId<'a>>, AllocError>
    ensures { IfOk result (λ found. keys_of found.items ≡ heads.closure (world_of space.now.world) (keys_of protocols.now)) }
{
    let mut found = Vec::new(alloc);
    let mut left = reversed(alloc, protocols)?;
    visit_times(alloc, &mut found, &mut left, space, protocols.len())?;
    visit_times(alloc, &mut found, &mut left, space, space.inherited_count())?;
    Ok(found)
}
