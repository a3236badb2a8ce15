//! The scope of a declaration's header, and what it stands in.

ghost use Rattle.std.specs.Prelude.{◌≡◌, ◌≤◌, IfOk, length, map};
ghost use Rattle.std.specs.Option.{option_map};
ghost use Rattle.evo_declarations.specs.Views.{entry_view, key_of_type, within_of};
ghost use Rattle.evo_declarations.specs.Worlds.{world_of};
ghost use Rattle.evo_headers.specs.Placed.{protocol_round};
ghost use Rattle.evo_names.specs.Faults as faults;
ghost use Rattle.evo_names.specs.Heads.{type_key};
ghost use Rattle.evo_names.specs.Listed as names;
ghost use Rattle.evo_names.specs.Resolved as resolved;
ghost use Rattle.evo_names.specs.Resolved.{declared_in};
ghost use Rattle.evo_members.specs.Located.{around_of as around_view};
ghost use Rattle.evo_type_names.specs.Starts as starts;

use evo_base::{Key, Name};
use evo_declarations::{Home, Listed, TypeId, Within, World, owner_of};
use evo_keys::{FoundType, key_of_id, type_named, type_round};
use evo_members::{Around, SelfType};
use evo_resolved::Standing;
use evo_tree::{DeclKind, GenericParameter, NominalKind};
use evo_type_names::Scope;
use std::alloc::{AllocError, Global};

fn around_of<'a>(world: World<'a>, within: Within<'a>) -> Around<'a>
    ensures { around_view result ≡ faults.around_of (world_of world.entry) (within_of within.entry) }
{
    match owner_of(world, within) {
        Some(head) => match head.kind {
            NominalKind::Protocol => Around::InProtocol(head.key, SelfType::Parameter),
            _ => Around::InType(head.key),
        },
        None => Around::Nowhere,
    }
}

fn generics_of<'a>(listed: &Listed<'a>) -> &'a [GenericParameter]
    ensures { result.now ≡ names.generics_of (entry_view listed.now).kind }
{
    match &listed.decl.kind {
        DeclKind::Function(_, header, _) => header.generics.as_slice(),
        DeclKind::Initialiser(header, _) => header.generics.as_slice(),
        _ => &[],
    }
}

/// The scope of the header of a declaration of the module itself.
#[tactic(auto, unfolding(evo_names::specs::Faults::scope_of))]
pub fn scope_of<'a>(world: World<'a>, listed: &Listed<'a>) -> Scope<'a>
    requires { length (names.generics_of (entry_view listed.now).kind) ≤ 4 }
    ensures { starts.scope_of world.entry result ≡ faults.scope_of (declared_in (world_of world.entry) (entry_view listed.now)) }
{
    Scope {
        home: Home::Own,
        around: around_of(world, listed.within),
        generics: generics_of(listed),
    }
}

fn if_protocol(found: Option<FoundType>) -> Option<Key>
    ensures { result ≡ protocol_round found }
{
    match found {
        Some(found) => match found.kind {
            NominalKind::Protocol => Some(found.key),
            _ => None,
        },
        None => None,
    }
}

/// The protocol of whose braces or extension a declaration is a member.
pub(crate) fn protocol_of(
    alloc: Global,
    world: World<'_>,
    listed: &Listed<'_>,
) -> Result<Option<Key>, AllocError>
    ensures { IfOk result (λ o. o ≡ resolved.protocol_of (declared_in (world_of world.entry) (entry_view listed.now))) }
{
    let found = type_round(alloc, world, listed.within)?;
    Ok(if_protocol(found))
}

fn key_in_braces(alloc: Global, module: &Name, name: &Name) -> Result<Key, AllocError>
    ensures { IfOk result (λ key. key ≡ type_key «module».now name.now) }
{
    let key = key_of_id(alloc, TypeId::of(module, name))?;
    Ok(key)
}

/// What a declaration stands in; nothing where that is an extension of what is no type or protocol.
pub(crate) fn standing_of(
    alloc: Global,
    world: World<'_>,
    within: Within<'_>,
) -> Result<Option<Standing>, AllocError>
    ensures { IfOk result (λ o. o ≡ resolved.standing_of (world_of world.entry) (within_of within.entry)) }
{
    let own = world.own;
    match within {
        Within::Top => Ok(Some(Standing::TopLevel)),
        Within::Braces(kind, name) => Ok(Some(Standing::Braces(
            kind,
            key_in_braces(alloc, own.listing.name, name)?,
        ))),
        Within::Extension(extended) => match type_named(alloc, world, extended)? {
            Some(found) => Ok(Some(Standing::Extension(found.kind, found.key))),
            None => Ok(None),
        },
    }
}
