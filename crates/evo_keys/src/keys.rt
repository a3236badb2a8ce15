//! Keys of declarations.

ghost use Rattle.std.specs.Prelude.{◌≡◌, ◌∷◌, [], IfOk, map};
ghost use Rattle.std.specs.Option.{option_copied, option_map};
ghost use Rattle.std.specs.Str.{IsUtf8};
ghost use Rattle.evo_declarations.specs.Views.{entry_view, within_of};
ghost use Rattle.evo_declarations.specs.Worlds.{world_of};
ghost use Rattle.evo_keys.specs.Bases.{AreBases, world_with};
ghost use Rattle.evo_keys.specs.Owned as spec;
ghost use Rattle.evo_keys.specs.Texts.{identifier_of};
ghost use Rattle.evo_names.specs.Bodies as bodies;
ghost use Rattle.evo_names.specs.Keys as keys;
ghost use Rattle.evo_names.specs.Listed as names;
ghost use Rattle.evo_names.specs.Resolved.{declared_in};

use crate::bases::Bases;
use crate::marks::own_part;
use crate::roots::root_of;
use crate::texts::{text_of, type_named};
use evo_base::{Key, List, Name};
use evo_declarations::{Listed, Within, World};
use evo_meeting::overrides;
use evo_tree::{DeclKind, Identifier, NominalKind, Parameter, ParameterLabel, TypeName};
use std::alloc::{AllocError, Global};

fn identifier_of<'a>(listed: &Listed<'a>) -> Option<&'a Identifier>
    ensures { option_copied result ≡ identifier_of (entry_view listed.now).kind }
{
    match &listed.decl.kind {
        DeclKind::Function(name, _, _) => Some(name),
        DeclKind::Initialiser(_, _) => None,
        DeclKind::Property(_, name, _, _) => Some(name),
        DeclKind::TypeAlias(name, _) => Some(name),
        DeclKind::AssociatedType(name, _, _) => Some(name),
        DeclKind::Case(name, _) => Some(name),
        DeclKind::Nominal(_, name, _, _) => Some(name),
        DeclKind::Extension(_, _, _) => None,
    }
}

fn is_initialiser(listed: &Listed<'_>) -> bool
    ensures { result ≡ names.is_initialiser (names.sort_of (entry_view listed.now).kind) }
{
    matches!(&listed.decl.kind, DeclKind::Initialiser(_, _))
}

/// The name without labels.
fn base_of(alloc: Global, listed: &Listed<'_>) -> Result<Option<Name>, AllocError>
    ensures { IfOk result (λ o. o ≡ spec.base_of (entry_view listed.now)) }
{
    if is_initialiser(listed) {
        return Ok(Some(text_of(alloc, b"init")?));
    }
    match identifier_of(listed) {
        Some(name) => Ok(Some(name.text.copy(alloc)?)),
        None => Ok(None),
    }
}

fn label_of(alloc: Global, parameter: &Parameter) -> Result<Name, AllocError>
    ensures { IfOk result (λ label. label ≡ names.label_of parameter.now) }
{
    match &parameter.label {
        ParameterLabel::Same => parameter.name.text.copy(alloc),
        ParameterLabel::Blank => text_of(alloc, b"_"),
        ParameterLabel::Written(label) => label.text.copy(alloc),
    }
}

fn labels(alloc: Global, parameters: &[Parameter]) -> Result<List<Name>, AllocError>
    ensures { IfOk result (λ found. found ≡ map names.label_of parameters.now) }
{
    let mut found = Vec::new(alloc);
    for parameter in parameters {
        found.push(label_of(alloc, parameter)?)?;
    }
    Ok(List::from_vec(found))
}

fn labels_of(alloc: Global, listed: &Listed<'_>) -> Result<Option<List<Name>>, AllocError>
    ensures { IfOk result (λ o. o ≡ names.labels_of (entry_view listed.now).kind) }
{
    match &listed.decl.kind {
        DeclKind::Function(_, header, _) => {
            Ok(Some(labels(alloc, header.parameters.as_slice())?))
        }
        DeclKind::Initialiser(header, _) => {
            Ok(Some(labels(alloc, header.parameters.as_slice())?))
        }
        _ => Ok(None),
    }
}

fn module_context(alloc: Global, module: &Name) -> Result<List<Name>, AllocError>
    ensures { IfOk result (λ context. context ≡ «module».now ∷ []) }
{
    let mut names = Vec::new(alloc);
    names.push(module.copy(alloc)?)?;
    Ok(List::from_vec(names))
}

fn type_context(alloc: Global, module: &Name, name: &Name) -> Result<List<Name>, AllocError>
    ensures { IfOk result (λ context. context ≡ «module».now ∷ name.now ∷ []) }
{
    let mut names = Vec::new(alloc);
    names.push(module.copy(alloc)?)?;
    names.push(name.copy(alloc)?)?;
    Ok(List::from_vec(names))
}

/// What stands in an extension stands in what it extends.
fn context_within(found: Key) -> Result<List<Name>, AllocError>
    ensures { IfOk result (λ context. context ≡ spec.context_within found) }
{
    let Key {
        module: _,
        context,
        base,
        labels: _,
        part: _,
    } = found;
    let mut names = context.into_vec();
    names.push(base)?;
    Ok(List::from_vec(names))
}

fn extended_context(
    alloc: Global,
    world: World<'_>,
    extended: &TypeName,
) -> Result<Option<List<Name>>, AllocError>
    ensures { IfOk result (λ o. o ≡ keys.context_of (world_of world.entry) (names.extension extended.now)) }
{
    match type_named(alloc, world, extended)? {
        Some(found) => Ok(Some(context_within(found.key)?)),
        None => Ok(None),
    }
}

fn context_of(
    alloc: Global,
    world: World<'_>,
    within: Within<'_>,
) -> Result<Option<List<Name>>, AllocError>
    ensures { IfOk result (λ o. o ≡ keys.context_of (world_of world.entry) (within_of within.entry)) }
{
    let own = world.own;
    let module = own.listing.name;
    match within {
        Within::Top => Ok(Some(module_context(alloc, module)?)),
        Within::Braces(_, name) => Ok(Some(type_context(alloc, module, name)?)),
        Within::Extension(extended) => extended_context(alloc, world, extended),
    }
}

fn is_requirement(listed: &Listed<'_>) -> bool
    ensures { result ≡ names.is_requirement (entry_view listed.now).within (names.sort_of (entry_view listed.now).kind) }
{
    match listed.within {
        Within::Braces(NominalKind::Protocol, _) => matches!(
            &listed.decl.kind,
            DeclKind::Function(_, _, _) | DeclKind::Property(_, _, _, _)
        ),
        _ => false,
    }
}

/// The key that a declaration has by where it stands, with the mark of an override or without it.
#[tactic(auto, unfolding(evo_names::specs::Keys::declared_name))]
fn marked_key(
    alloc: Global,
    world: World<'_>,
    listed: &Listed<'_>,
    overriding: bool,
) -> Result<Option<Key>, AllocError>
    ensures { IfOk result (λ o. o ≡ spec.marked_key overriding (declared_in (world_of world.entry) (entry_view listed.now))) }
{
    let Some(base) = base_of(alloc, listed)? else {
        return Ok(None);
    };
    let Some(context) = context_of(alloc, world, listed.within)? else {
        return Ok(None);
    };
    let own = world.own;
    let labels = labels_of(alloc, listed)?;
    let part = own_part(alloc, is_requirement(listed), overriding)?;
    Ok(Some(Key {
        module: own.listing.name.copy(alloc)?,
        context,
        base,
        labels,
        part,
    }))
}

/// The key that a declaration has by where it stands; nothing where it has no name, or stands in an extension of what is
/// no type or protocol.
pub fn own_key(
    alloc: Global,
    world: World<'_>,
    listed: &Listed<'_>,
) -> Result<Option<Key>, AllocError>
    ensures { IfOk result (λ o. o ≡ keys.own_key (declared_in (world_of world.entry) (entry_view listed.now))) }
{
    let key = marked_key(alloc, world, listed, false)?;
    Ok(key)
}

/// The key under which its body stands: that of its own place, with a mark where it overrides.
pub fn body_key(
    alloc: Global,
    world: World<'_>,
    listed: &Listed<'_>,
) -> Result<Option<Key>, AllocError>
    ensures { IfOk result (λ o. o ≡ keys.body_key (declared_in (world_of world.entry) (entry_view listed.now))) }
{
    let key = marked_key(alloc, world, listed, overrides(listed))?;
    Ok(key)
}

fn extended_key(
    alloc: Global,
    world: World<'_>,
    extended: &TypeName,
) -> Result<Option<Key>, AllocError>
    ensures { IfOk result (λ o. o ≡ spec.extended_key (world_of world.entry) extended.now) }
{
    match type_named(alloc, world, extended)? {
        Some(found) => Ok(Some(found.key)),
        None => Ok(None),
    }
}

fn root_key(alloc: Global, bases: Bases<'_>, listed: &Listed<'_>) -> Result<Option<Key>, AllocError>
    requires { AreBases bases }
    ensures { IfOk result (λ o. o ≡ spec.root_key (declared_in (world_with bases.entry) (entry_view listed.now))) }
{
    match root_of(bases, listed) {
        Some(root) => own_key(alloc, root.world, &root.listed),
        None => Ok(None),
    }
}

fn overriding_key(
    alloc: Global,
    bases: Bases<'_>,
    listed: &Listed<'_>,
) -> Result<Option<Key>, AllocError>
    requires { AreBases bases }
    ensures { IfOk result (λ o. o ≡ spec.overriding_key (declared_in (world_with bases.entry) (entry_view listed.now))) }
{
    match root_key(alloc, bases, listed)? {
        Some(key) => Ok(Some(key)),
        None => body_key(alloc, bases.world(), listed),
    }
}

/// The key of a declaration: what overrides a function has its root's, and an extension that of what it extends. There is
/// none where one of the names by which it is told is none.
#[tactic(auto, unfolding(evo_names::specs::Keys::key_of))]
pub fn key_of(
    alloc: Global,
    bases: Bases<'_>,
    listed: &Listed<'_>,
) -> Result<Option<Key>, AllocError>
    requires { AreBases bases }
    ensures { IfOk result (λ o. o ≡ keys.key_of (declared_in (world_with bases.entry) (entry_view listed.now))) }
{
    match &listed.decl.kind {
        DeclKind::Function(_, _, _) => {
            if overrides(listed) {
                return overriding_key(alloc, bases, listed);
            }
            own_key(alloc, bases.world(), listed)
        }
        DeclKind::Extension(extended, _, _) => extended_key(alloc, bases.world(), extended),
        _ => own_key(alloc, bases.world(), listed),
    }
}

/// The key of what owns a declaration's bodies: that of its own place, and for an extension that of what it extends.
#[tactic(auto, unfolding(evo_names::specs::Keys::key_of))]
pub fn owner_key(
    alloc: Global,
    world: World<'_>,
    listed: &Listed<'_>,
) -> Result<Option<Key>, AllocError>
    ensures { IfOk result (λ o. o ≡ bodies.owner_key (declared_in (world_of world.entry) (entry_view listed.now)) (entry_view listed.now).kind) }
{
    match &listed.decl.kind {
        DeclKind::Extension(extended, _, _) => extended_key(alloc, world, extended),
        _ => body_key(alloc, world, listed),
    }
}
