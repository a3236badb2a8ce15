//! Types by their keys, and the classes above them.

ghost use Rattle.std.specs.Prelude.{◌≡◌};
ghost use Rattle.evo_declarations.specs.Views.{entry_view, key_of_type, types_of};
ghost use Rattle.evo_declarations.specs.Worlds.{world_of};
ghost use Rattle.evo_keys.specs.Members.{found_member, member_view};
ghost use Rattle.evo_keys.specs.Types as spec;
ghost use Rattle.evo_names.specs.Heads as heads;

use crate::members::Member;
use evo_declarations::{Listed, TypeId, World, alone, class_named};
use evo_tree::{DeclKind, NominalKind, TypeName};

fn declares(world: World<'_>, id: TypeId<'_>, listed: &Listed<'_>) -> bool
    ensures { result ≡ spec.declares_in (world_of world.entry) (key_of_type id.entry) (entry_view listed.now) }
{
    let own = world.own;
    match &listed.decl.kind {
        DeclKind::Nominal(_, name, _, _) => {
            own.listing.name.as_slice() == id.module && name.text.as_slice() == id.base
        }
        _ => false,
    }
}

fn declared_at<'a>(world: World<'a>, id: TypeId<'_>, number: usize) -> Option<Member<'a>>
    ensures { found_member result ≡ spec.declared_at_number (world_of world.entry) (key_of_type id.entry) number }
{
    let own = world.own;
    let listed = own.listing.entries.get(number)?;
    if declares(world, id, listed) {
        Some(Member {
            world,
            listed: *listed,
        })
    } else {
        None
    }
}

/// The declaration of a type or protocol in the module itself.
fn declaration_in<'a>(world: World<'a>, id: TypeId<'_>) -> Option<Member<'a>>
    ensures { found_member result ≡ spec.first_declared (key_of_type id.entry) (world_of world.entry) }
{
    let own = world.own;
    let numbers = own.types_named(id.base);
    for &number in numbers {
        if let Some(found) = declared_at(world, id, number) {
            return Some(found);
        }
    }
    None
}

fn declared<'a>(world: World<'a>, id: TypeId<'_>) -> Option<Member<'a>>
    ensures { found_member result ≡ spec.in_both (spec.first_declared (key_of_type id.entry)) (world_of world.entry) }
{
    if let Some(names) = world.imported {
        if let Some(found) = declaration_in(alone(names), id) {
            return Some(found);
        }
    }
    declaration_in(world, id)
}

/// The declaration of a type or protocol.
pub fn declaration_of<'a>(world: World<'a>, id: TypeId<'_>) -> Option<Member<'a>>
    ensures { found_member result ≡ heads.declaration_of (world_of world.entry) (key_of_type id.entry) }
{
    declared(world, id)
}

fn first_class<'a>(world: World<'a>, inherited: &'a [TypeName]) -> Option<TypeId<'a>>
    ensures { types_of result ≡ spec.first_class (world_of world.entry) inherited.now }
{
    match inherited {
        [] => None,
        [first, ..] => class_named(world, first),
    }
}

fn first_inherited(member: Member<'_>) -> Option<TypeId<'_>>
    ensures { types_of result ≡ heads.first_inherited (member_view member.entry).world (member_view member.entry).entry.kind }
{
    let listed = member.listed;
    match &listed.decl.kind {
        DeclKind::Nominal(NominalKind::Class, _, inherited, _) => {
            first_class(member.world, inherited.as_slice())
        }
        _ => None,
    }
}

/// The class above a class.
#[tactic(auto, unfolding(evo_names::specs::Heads::superclass))]
pub fn superclass<'a>(world: World<'a>, id: TypeId<'_>) -> Option<TypeId<'a>>
    ensures { types_of result ≡ heads.superclass (world_of world.entry) (key_of_type id.entry) }
{
    let member = declaration_of(world, id)?;
    first_inherited(member)
}
