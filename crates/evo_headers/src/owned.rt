//! Types and keys of our own, made of borrowed ones.

ghost use Rattle.std.specs.Prelude.{◌≡◌, ◌∷◌, [], IfOk};
ghost use Rattle.std.specs.Str.{IsUtf8};
ghost use Rattle.evo_headers.specs.Owned.{IsCopied};
ghost use Rattle.evo_meeting.specs.Spots.{context_of};
ghost use Rattle.evo_type_names.specs.Aliases.{alias_key, alias_keys};
ghost use Rattle.evo_type_names.specs.Known.{parameter_type, texts_of, type_view};

use evo_base::{Key, List, Name, Part};
use evo_declarations::TypeId;
use evo_keys::key_of_id;
use evo_meeting::Context;
use evo_resolved::RType;
use evo_type_names::{AliasId, Meaning, TypeHead};
use std::alloc::{AllocError, Global};

/// A type, and the `typealias`es by which its names lead to it.
#[derive(Drop)]
pub(crate) struct Found {
    pub aliases: Vec<Key>,
    pub resolved: RType,
}

fn module_context(alloc: Global, module: &Name) -> Result<List<Name>, AllocError>
    ensures { IfOk result (λ context. context ≡ «module».now ∷ []) }
{
    let mut names = Vec::new(alloc);
    names.push(module.copy(alloc)?)?;
    Ok(List::from_vec(names))
}

fn name_of(alloc: Global, text: &[u8]) -> Result<Name, AllocError>
    requires { IsUtf8 text.now }
    ensures { IfOk result (λ name. name ≡ text.now) }
{
    Ok(Name::from_vec(text.to_vec(alloc)?))
}

fn type_context(alloc: Global, ty: TypeId<'_>) -> Result<List<Name>, AllocError>
    ensures { IfOk result (λ context. context ≡ ty.entry.module.now ∷ ty.entry.base.now ∷ []) }
{
    let mut names = Vec::new(alloc);
    names.push(name_of(alloc, ty.module_text())?)?;
    names.push(name_of(alloc, ty.base_text())?)?;
    Ok(List::from_vec(names))
}

fn context_names(alloc: Global, context: Context<'_>) -> Result<List<Name>, AllocError>
    ensures { IfOk result (λ names. names ≡ context_of context.entry) }
{
    match context {
        Context::Module(module) => module_context(alloc, module),
        Context::Type(ty) => type_context(alloc, ty),
    }
}

fn key_of_alias(alloc: Global, alias: AliasId<'_>) -> Result<Key, AllocError>
    ensures { IfOk result (λ key. key ≡ alias_key alias.entry) }
{
    Ok(Key {
        module: alias.module.copy(alloc)?,
        context: context_names(alloc, alias.context)?,
        base: alias.base.copy(alloc)?,
        labels: None,
        part: Part {
            marks: List::from_vec(Vec::new(alloc)),
        },
    })
}

fn keys_of_aliases(alloc: Global, aliases: &[AliasId<'_>]) -> Result<Vec<Key>, AllocError>
    ensures { IfOk result (λ keys. keys.items ≡ alias_keys aliases.now) }
{
    let mut keys = Vec::new(alloc);
    for alias in aliases {
        keys.push(key_of_alias(alloc, *alias)?)?;
    }
    Ok(keys)
}

fn copied_names(alloc: Global, names: &[&Name]) -> Result<List<Name>, AllocError>
    ensures { IfOk result (λ copies. copies ≡ texts_of names.now) }
{
    let mut copies = Vec::new(alloc);
    for name in names {
        copies.push(name.copy(alloc)?)?;
    }
    Ok(List::from_vec(copies))
}

fn parameter(alloc: Global, number: u32, path: &[&Name]) -> Result<RType, AllocError>
    ensures { IfOk result (λ ty. ty ≡ parameter_type number (texts_of path.now)) }
{
    match path {
        [] => Ok(RType::Param(number)),
        _ => Ok(RType::Assoc(number, copied_names(alloc, path)?)),
    }
}

fn resolved_type(alloc: Global, head: TypeHead<'_>, path: &[&Name]) -> Result<RType, AllocError>
    ensures { IfOk result (λ ty. ty ≡ type_view head.entry (texts_of path.now)) }
{
    match head {
        TypeHead::Named(id) => Ok(RType::Named(key_of_id(alloc, id)?)),
        TypeHead::Parameter(number) => parameter(alloc, number, path),
        TypeHead::NoValue => Ok(RType::NoValue),
    }
}

/// The type that names mean, of our own.
pub(crate) fn found_of(alloc: Global, meaning: &Meaning<'_>) -> Result<Found, AllocError>
    ensures { IfOk result (λ found. IsCopied meaning.now found) }
{
    let aliases = keys_of_aliases(alloc, meaning.aliases.as_slice())?;
    let resolved = resolved_type(alloc, meaning.head, meaning.path.as_slice())?;
    Ok(Found { aliases, resolved })
}
