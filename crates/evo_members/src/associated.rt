//! Associated types of protocols, and what they are in types.

ghost use Rattle.std.specs.Prelude.{◌≡◌, ◌++◌, IfOk, OnOk, flat_map};
ghost use Rattle.std.specs.Option.{option_map, option_or};
ghost use Rattle.evo_declarations.specs.Views.{entry_view, key_of_type};
ghost use Rattle.evo_declarations.specs.Worlds.{world_of};
ghost use Rattle.evo_members.specs.Associated.{IsAssociated, IsFirst, default_at, defaults_in, is_named, number_associated, provider_if, recorded_by, recorded_in};
ghost use Rattle.evo_members.specs.Located.{start_of};
ghost use Rattle.evo_members.specs.Views.{keys_of};
ghost use Rattle.evo_names.specs.Written as written;

use crate::conforming::{conformances, is_among};
use crate::declared::Declared;
use crate::inheriting::closure;
use crate::located::{Around, Located, SelfType};
use crate::member::{Sought, Test, is_there, nearest_alias};
use crate::space::Space;
use evo_declarations::TypeId;
use evo_tree::DeclKind;
use std::alloc::{AllocError, Global};

fn is_associated<'a>(declared: Declared<'a>, name: &[u8]) -> bool
    ensures { result ≡ is_named name.now (entry_view declared.entry.listed).kind }
{
    match &declared.listed.decl.kind {
        DeclKind::AssociatedType(own, _, _) => own.text.as_slice() == name,
        _ => false,
    }
}

fn is_sought<'a>(
    space: &Space<'a>,
    protocol: TypeId<'a>,
    name: &[u8],
    braces: bool,
    number: usize,
) -> bool
    ensures { result ≡ number_associated (world_of space.now.world) (key_of_type protocol.entry) name.now braces number }
{
    match space.at(number) {
        Some(declared) => {
            is_associated(declared, name) && is_there(space.world, declared, protocol, braces)
        }
        None => false,
    }
}

fn associated_in<'a>(
    space: &Space<'a>,
    protocol: TypeId<'a>,
    name: &[u8],
    braces: bool,
) -> Option<usize>
    ensures { IsFirst (world_of space.now.world) (key_of_type protocol.entry) name.now braces result }
{
    let numbers = space.aliases_named(name);
    for &number in numbers {
        if is_sought(space, protocol, name, braces, number) {
            return Some(number);
        }
    }
    None
}

/// The number of an associated type that this protocol itself declares.
pub fn associated_of<'a>(space: &Space<'a>, protocol: TypeId<'a>, name: &[u8]) -> Option<usize>
    ensures { IsAssociated (world_of space.now.world) (key_of_type protocol.entry) name.now result }
{
    match associated_in(space, protocol, name, true) {
        Some(number) => Some(number),
        None => associated_in(space, protocol, name, false),
    }
}

fn has_default<'a>(space: &Space<'a>, number: usize) -> bool
    ensures { result ≡ default_at (world_of space.now.world) number }
{
    match space.at(number) {
        Some(declared) => match &declared.listed.decl.kind {
            DeclKind::AssociatedType(_, _, Some(_)) => true,
            _ => false,
        },
        None => false,
    }
}

/// The default of a protocol's associated type, with a type that conforms in place of `Self`.
pub fn default_of<'a>(
    space: &Space<'a>,
    key: TypeId<'a>,
    name: &[u8],
    protocol: TypeId<'a>,
) -> Option<Located<'a>>
    ensures { option_map (start_of (world_of space.now.world)) result ≡ written.default_of (world_of space.now.world) (key_of_type key.entry) name.now (key_of_type protocol.entry) }
{
    match associated_of(space, protocol, name) {
        Some(number) => {
            if !has_default(space, number) {
                return None;
            }
            Some(Located {
                number,
                around: Around::InProtocol(protocol, SelfType::Named(key)),
            })
        }
        None => None,
    }
}

fn has_associated<'a>(space: &Space<'a>, protocol: TypeId<'a>, name: &[u8]) -> bool
    ensures { result ≡ written.is_some (written.associated_of (world_of space.now.world) (key_of_type protocol.entry) name.now) }
{
    match associated_of(space, protocol, name) {
        Some(_) => true,
        None => false,
    }
}

fn push_provider<'a>(
    found: &mut Vec<TypeId<'a>>,
    space: &Space<'a>,
    declared: &[TypeId<'a>],
    name: &[u8],
    protocol: TypeId<'a>,
) -> Result<(), AllocError>
    ensures { OnOk result (keys_of found.new.items ≡ keys_of found.old.items ++ provider_if (world_of space.now.world) (keys_of declared.now) name.now (key_of_type protocol.entry)) }
{
    if has_associated(space, protocol, name) && is_among(protocol, declared) {
        found.push(protocol)?;
        Ok(())
    } else {
        Ok(())
    }
}

fn providers_among<'a>(
    alloc: Global,
    space: &Space<'a>,
    declared: &[TypeId<'a>],
    name: &[u8],
    reached: &[TypeId<'a>],
) -> Result<Vec<TypeId<'a>>, AllocError>
    ensures { IfOk result (λ found. keys_of found.items ≡ flat_map (provider_if (world_of space.now.world) (keys_of declared.now) name.now) (keys_of reached.now)) }
{
    let mut found = Vec::new(alloc);
    for protocol in reached {
        push_provider(&mut found, space, declared, name, *protocol)?;
    }
    Ok(found)
}

/// Those of these protocols, and of what they inherit, that have the associated type, and to which the type is declared
/// to conform.
fn providers<'a>(
    alloc: Global,
    space: &Space<'a>,
    protocols: &[TypeId<'a>],
    key: TypeId<'a>,
    name: &[u8],
) -> Result<Vec<TypeId<'a>>, AllocError>
    ensures { IfOk result (λ found. keys_of found.items ≡ written.providers (world_of space.now.world) (keys_of protocols.now) (key_of_type key.entry) name.now) }
{
    let reached = closure(alloc, space, protocols)?;
    let declared = conformances(alloc, space, key)?;
    let found = providers_among(alloc, space, declared.as_slice(), name, reached.as_slice())?;
    Ok(found)
}

/// What the conformance to a protocol records.
#[tactic(auto, unfolding(crate::specs::Associated::recorded_by))]
fn recorded<'a>(
    space: &Space<'a>,
    key: TypeId<'a>,
    name: &'a [u8],
    protocol: TypeId<'a>,
) -> Option<Located<'a>>
    ensures { option_map (start_of (world_of space.now.world)) result ≡ recorded_by (world_of space.now.world) (key_of_type key.entry) name.now (key_of_type protocol.entry) }
{
    let sought = Sought {
        name,
        test: Test::MayMeet(key, protocol),
    };
    nearest_alias(space, key, sought)
}

/// What one of the conformances records.
fn first_recorded<'a>(
    space: &Space<'a>,
    key: TypeId<'a>,
    name: &'a [u8],
    protocols: &[TypeId<'a>],
) -> Option<Located<'a>>
    ensures { option_map (start_of (world_of space.now.world)) result ≡ recorded_in (world_of space.now.world) (key_of_type key.entry) name.now (keys_of protocols.now) }
{
    for protocol in protocols {
        if let Some(located) = recorded(space, key, name, *protocol) {
            return Some(located);
        }
    }
    None
}

fn first_default<'a>(
    space: &Space<'a>,
    key: TypeId<'a>,
    name: &[u8],
    protocols: &[TypeId<'a>],
) -> Option<Located<'a>>
    ensures { option_map (start_of (world_of space.now.world)) result ≡ defaults_in (world_of space.now.world) (key_of_type key.entry) name.now (keys_of protocols.now) }
{
    for protocol in protocols {
        if let Some(located) = default_of(space, key, name, *protocol) {
            return Some(located);
        }
    }
    None
}

fn by_providers<'a>(
    space: &Space<'a>,
    key: TypeId<'a>,
    name: &'a [u8],
    protocols: &[TypeId<'a>],
) -> Option<Located<'a>>
    ensures { option_map (start_of (world_of space.now.world)) result ≡ option_or (recorded_in (world_of space.now.world) (key_of_type key.entry) name.now (keys_of protocols.now)) (defaults_in (world_of space.now.world) (key_of_type key.entry) name.now (keys_of protocols.now)) }
{
    match first_recorded(space, key, name, protocols) {
        Some(located) => Some(located),
        None => first_default(space, key, name, protocols),
    }
}

/// An associated type of a named type by its declared conformances to those of these protocols, and of what they
/// inherit, that have it: what one of them records comes first, else a default.
#[tactic(auto, unfolding(evo_names::specs::Written::associated_type, crate::specs::Associated::recorded_by))]
pub fn associated_type<'a>(
    alloc: Global,
    space: &Space<'a>,
    protocols: &[TypeId<'a>],
    key: TypeId<'a>,
    name: &'a [u8],
) -> Result<Option<Located<'a>>, AllocError>
    ensures { IfOk result (λ o. option_map (start_of (world_of space.now.world)) o ≡ written.associated_type (world_of space.now.world) (keys_of protocols.now) (key_of_type key.entry) name.now) }
{
    let found = providers(alloc, space, protocols, key, name)?;
    let located = by_providers(space, key, name, found.as_slice());
    Ok(located)
}
