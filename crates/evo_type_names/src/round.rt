//! What a name finds by what stands round it, and behind a type.

ghost use Rattle.std.specs.Prelude.{◌≡◌, ◌∷◌, [], IfOk};
ghost use Rattle.std.specs.Option.{option_map};
ghost use Rattle.evo_declarations.specs.Views.{key_of_type, view_of};
ghost use Rattle.evo_declarations.specs.Worlds.{world_of};
ghost use Rattle.evo_members.specs.Located.{around_of, self_of, start_of};
ghost use Rattle.evo_members.specs.Views.{keys_of};
ghost use Rattle.evo_names.specs.Written as written;
ghost use Rattle.evo_type_names.specs.Round.{alias_member, around_found, found_member, found_members, member_of_protocol, members_round, required_member};
ghost use Rattle.evo_type_names.specs.Starts.{start_view};

use crate::start::Start;
use evo_base::Name;
use evo_declarations::{TypeId, Viewpoint};
use evo_members::{
    Around, Located, SelfType, Sought, Space, Test, alias_of, associated_of, associated_type,
    closure, conformances, nearest_alias,
};
use std::alloc::{AllocError, Global};

fn any_associated<'a>(
    alloc: Global,
    space: &Space<'a>,
    key: TypeId<'a>,
    name: &'a [u8],
) -> Result<Option<Located<'a>>, AllocError>
    ensures { IfOk result (λ o. option_map (start_of (world_of space.now.world)) o ≡ found_member (world_of space.now.world) (key_of_type key.entry) name.now) }
{
    let declared = conformances(alloc, space, key)?;
    let found = associated_type(alloc, space, declared.as_slice(), key, name)?;
    Ok(found)
}

/// What stands behind a type by its name: a `typealias` that is seen, else an associated type of any conformance.
#[tactic(auto, unfolding(evo_names::specs::Written::type_member))]
pub(crate) fn type_member<'a>(
    alloc: Global,
    space: &Space<'a>,
    view: Viewpoint<'a>,
    key: TypeId<'a>,
    name: &'a [u8],
) -> Result<Option<Located<'a>>, AllocError>
    ensures { IfOk result (λ o. option_map (start_of (world_of space.now.world)) o ≡ written.type_member (world_of space.now.world) (view_of view.entry) (key_of_type key.entry) name.now) }
{
    if !space.has_alias(name) {
        return Ok(None);
    }
    let sought = Sought {
        name,
        test: Test::Sees(view),
    };
    match nearest_alias(space, key, sought) {
        Some(located) => Ok(Some(located)),
        None => any_associated(alloc, space, key, name),
    }
}

fn started<'a>(located: Option<Located<'a>>, space: &Space<'a>) -> Option<Start<'a>>
    ensures { option_map (start_view (world_of space.now.world)) result ≡ option_map (start_of (world_of space.now.world)) located.entry }
{
    match located {
        Some(located) => Some(Start::Written(located)),
        None => None,
    }
}

/// An associated type of `Self`, where a protocol requires it.
fn required<'a>(
    alloc: Global,
    space: &Space<'a>,
    protocol: TypeId<'a>,
    own: SelfType<'a>,
    name: &'a Name,
) -> Result<Option<Start<'a>>, AllocError>
    ensures { IfOk result (λ o. option_map (start_view (world_of space.now.world)) o ≡ written.required (world_of space.now.world) (key_of_type protocol.entry) (self_of own.entry) name.now) }
{
    match own {
        SelfType::Named(key) => {
            let protocols = [protocol];
            let found = associated_type(alloc, space, protocols.as_slice(), key, name.as_slice())?;
            Ok(started(found, space))
        }
        SelfType::Parameter => Ok(Some(Start::Member(0, name))),
    }
}

fn required_if<'a>(
    alloc: Global,
    space: &Space<'a>,
    own: SelfType<'a>,
    name: &'a Name,
    protocol: TypeId<'a>,
) -> Result<Option<Start<'a>>, AllocError>
    ensures { IfOk result (λ o. option_map (start_view (world_of space.now.world)) o ≡ required_member (world_of space.now.world) (self_of own.entry) name.now (key_of_type protocol.entry)) }
{
    match associated_of(space, protocol, name.as_slice()) {
        Some(_) => required(alloc, space, protocol, own, name),
        None => Ok(None),
    }
}

fn protocol_alias<'a>(
    space: &Space<'a>,
    view: Viewpoint<'a>,
    own: SelfType<'a>,
    name: &'a [u8],
    protocol: TypeId<'a>,
) -> Option<Start<'a>>
    ensures { option_map (start_view (world_of space.now.world)) result ≡ alias_member (world_of space.now.world) (view_of view.entry) (self_of own.entry) name.now (key_of_type protocol.entry) }
{
    let sought = Sought {
        name,
        test: Test::Sees(view),
    };
    started(
        alias_of(space, protocol, sought, Around::InProtocol(protocol, own)),
        space,
    )
}

/// One protocol's associated types come before its `typealias`es.
#[tactic(auto, unfolding(crate::specs::Round::member_of_protocol))]
fn protocol_member<'a>(
    alloc: Global,
    space: &Space<'a>,
    view: Viewpoint<'a>,
    own: SelfType<'a>,
    name: &'a Name,
    protocol: TypeId<'a>,
) -> Result<Option<Start<'a>>, AllocError>
    ensures { IfOk result (λ o. option_map (start_view (world_of space.now.world)) o ≡ member_of_protocol (world_of space.now.world) (view_of view.entry) (self_of own.entry) name.now (key_of_type protocol.entry)) }
{
    match required_if(alloc, space, own, name, protocol)? {
        Some(start) => Ok(Some(start)),
        None => Ok(protocol_alias(space, view, own, name.as_slice(), protocol)),
    }
}

fn first_member<'a>(
    alloc: Global,
    space: &Space<'a>,
    view: Viewpoint<'a>,
    own: SelfType<'a>,
    name: &'a Name,
    protocols: &[TypeId<'a>],
) -> Result<Option<Start<'a>>, AllocError>
    ensures { IfOk result (λ o. option_map (start_view (world_of space.now.world)) o ≡ found_members (world_of space.now.world) (view_of view.entry) (self_of own.entry) name.now (keys_of protocols.now)) }
{
    for protocol in protocols {
        if let Some(start) = protocol_member(alloc, space, view, own, name, *protocol)? {
            return Ok(Some(start));
        }
    }
    Ok(None)
}

/// Protocols are gone through one by one, a protocol before what it inherits.
fn in_protocol<'a>(
    alloc: Global,
    space: &Space<'a>,
    view: Viewpoint<'a>,
    own: SelfType<'a>,
    name: &'a Name,
    protocol: TypeId<'a>,
) -> Result<Option<Start<'a>>, AllocError>
    ensures { IfOk result (λ o. option_map (start_view (world_of space.now.world)) o ≡ members_round (world_of space.now.world) (view_of view.entry) (self_of own.entry) name.now (key_of_type protocol.entry)) }
{
    if !space.has_alias(name.as_slice()) {
        return Ok(None);
    }
    let protocols = [protocol];
    let reached = closure(alloc, space, protocols.as_slice())?;
    let found = first_member(alloc, space, view, own, name, reached.as_slice())?;
    Ok(found)
}

fn self_start<'a>(own: SelfType<'a>, space: &Space<'a>) -> Start<'a>
    ensures { start_view (world_of space.now.world) result ≡ written.fixed (self_of own.entry) }
{
    match own {
        SelfType::Named(key) => Start::Named(key),
        SelfType::Parameter => Start::Parameter(0),
    }
}

fn in_type<'a>(
    alloc: Global,
    space: &Space<'a>,
    view: Viewpoint<'a>,
    key: TypeId<'a>,
    name: &'a [u8],
) -> Result<Option<Start<'a>>, AllocError>
    ensures { IfOk result (λ o. option_map (start_view (world_of space.now.world)) o ≡ written.type_member (world_of space.now.world) (view_of view.entry) (key_of_type key.entry) name.now) }
{
    let found = type_member(alloc, space, view, key, name)?;
    Ok(started(found, space))
}

/// What a name finds by what stands round it.
#[tactic(auto, unfolding(crate::specs::Round::around_found, crate::specs::Round::member_of_protocol))]
pub(crate) fn found_around<'a>(
    alloc: Global,
    space: &Space<'a>,
    view: Viewpoint<'a>,
    around: Around<'a>,
    name: &'a Name,
) -> Result<Option<Start<'a>>, AllocError>
    ensures { IfOk result (λ o. option_map (start_view (world_of space.now.world)) o ≡ around_found (world_of space.now.world) (view_of view.entry) (around_of around.entry) name.now) }
{
    match around {
        Around::Nowhere => Ok(None),
        Around::InType(key) => in_type(alloc, space, view, key, name.as_slice()),
        Around::InProtocol(protocol, own) => {
            if name.as_slice() == b"Self".as_slice() {
                return Ok(Some(self_start(own, space)));
            }
            in_protocol(alloc, space, view, own, name, protocol)
        }
    }
}
