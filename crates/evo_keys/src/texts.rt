//! Owned keys of the types and protocols that names find.

ghost use Rattle.std.specs.Prelude.{◌≡◌, ◌∷◌, [], Some, IfOk};
ghost use Rattle.std.specs.Option.{option_map};
ghost use Rattle.std.specs.Str.{IsUtf8};
ghost use Rattle.evo_declarations.specs.Heads.{head_of_code};
ghost use Rattle.evo_declarations.specs.Views.{key_of_type, within_of};
ghost use Rattle.evo_declarations.specs.Worlds.{world_of};
ghost use Rattle.evo_keys.specs.Texts.{found_text};
ghost use Rattle.evo_names.specs.Heads as heads;

use evo_base::{Key, List, Name, Part};
use evo_declarations::{Head, TypeId, Within, World, head_in, head_of};
use evo_tree::{NominalKind, TypeName};
use std::alloc::{AllocError, Global};

/// A type or protocol that a name finds, by its kind and its key.
#[derive(Drop)]
pub struct FoundType {
    pub kind: NominalKind,
    pub key: Key,
}

pub(crate) fn text_of(alloc: Global, bytes: &[u8]) -> Result<Name, AllocError>
    requires { IsUtf8 bytes.now }
    ensures { IfOk result (λ name. name ≡ bytes.now) }
{
    Ok(Name::from_vec(bytes.to_vec(alloc)?))
}

fn one_text(alloc: Global, text: &[u8]) -> Result<List<Name>, AllocError>
    requires { IsUtf8 text.now }
    ensures { IfOk result (λ names. names ≡ text.now ∷ []) }
{
    let mut names = Vec::new(alloc);
    names.push(text_of(alloc, text)?)?;
    Ok(List::from_vec(names))
}

/// The key of a type or protocol.
pub fn key_of_id(alloc: Global, id: TypeId<'_>) -> Result<Key, AllocError>
    ensures { IfOk result (λ key. key ≡ key_of_type id.entry) }
{
    Ok(Key {
        module: text_of(alloc, id.module_text())?,
        context: one_text(alloc, id.module_text())?,
        base: text_of(alloc, id.base_text())?,
        labels: None,
        part: Part {
            marks: List::from_vec(Vec::new(alloc)),
        },
    })
}

fn found(alloc: Global, head: Head<'_>) -> Result<Option<FoundType>, AllocError>
    ensures { IfOk result (λ o. o ≡ Some (found_text (head_of_code head.entry))) }
{
    Ok(Some(FoundType {
        kind: head.kind,
        key: key_of_id(alloc, head.key)?,
    }))
}

/// The type or protocol that is named where a protocol, a superclass or what is extended stands.
pub fn type_named(
    alloc: Global,
    world: World<'_>,
    written: &TypeName,
) -> Result<Option<FoundType>, AllocError>
    ensures { IfOk result (λ o. o ≡ option_map found_text (heads.head_of (world_of world.entry) written.now.names)) }
{
    let Some(head) = head_of(world, written.names.as_slice()) else {
        return Ok(None);
    };
    found(alloc, head)
}

fn in_braces(alloc: Global, world: World<'_>, name: &Name) -> Result<Option<FoundType>, AllocError>
    ensures { IfOk result (λ o. o ≡ option_map found_text (heads.head_in (heads.top_view (world_of world.entry)) (world_of world.entry).own name.now)) }
{
    let Some(head) = head_in(world.top_view(), world.own, name.as_slice()) else {
        return Ok(None);
    };
    found(alloc, head)
}

/// The type or protocol that a declaration is a member of.
pub fn type_round(
    alloc: Global,
    world: World<'_>,
    within: Within<'_>,
) -> Result<Option<FoundType>, AllocError>
    ensures { IfOk result (λ o. o ≡ option_map found_text (heads.owner_of (world_of world.entry) (within_of within.entry))) }
{
    match within {
        Within::Top => Ok(None),
        Within::Braces(_, name) => in_braces(alloc, world, name),
        Within::Extension(extended) => type_named(alloc, world, extended),
    }
}

/// The key of the protocol that is named.
pub fn protocol_key(
    alloc: Global,
    world: World<'_>,
    written: &TypeName,
) -> Result<Option<Key>, AllocError>
    ensures { IfOk result (λ o. o ≡ heads.protocol_named (world_of world.entry) written.now) }
{
    let Some(head) = head_of(world, written.names.as_slice()) else {
        return Ok(None);
    };
    match head.kind {
        NominalKind::Protocol => Ok(Some(key_of_id(alloc, head.key)?)),
        _ => Ok(None),
    }
}

/// The key of the class that is named.
pub fn class_key(
    alloc: Global,
    world: World<'_>,
    written: &TypeName,
) -> Result<Option<Key>, AllocError>
    ensures { IfOk result (λ o. o ≡ heads.class_named (world_of world.entry) written.now) }
{
    let Some(head) = head_of(world, written.names.as_slice()) else {
        return Ok(None);
    };
    match head.kind {
        NominalKind::Class => Ok(Some(key_of_id(alloc, head.key)?)),
        _ => Ok(None),
    }
}
