//! Types and protocols by their own names.

ghost use Rattle.std.specs.Prelude.{◌≡◌, map};
ghost use Rattle.std.specs.Option.{option_and_then, option_map};
ghost use Rattle.evo_declarations.specs.Heads.{found_head, head_at_number, head_of_code};
ghost use Rattle.evo_declarations.specs.Views.{entry_view, key_of_type, listing_view, shown_of, types_of, view_of, within_of};
ghost use Rattle.evo_declarations.specs.Worlds.{module_view, world_of};
ghost use Rattle.evo_names.specs.Heads as heads;

use crate::level::{Level, written_level};
use crate::listed::{Listed, Within};
use crate::names::Names;
use crate::seen::{Shown, Viewpoint, is_seen};
use crate::type_id::TypeId;
use crate::world::World;
use evo_base::Name;
use evo_tree::{DeclKind, NominalKind, TypeName};

/// A type or protocol that a name finds.
#[derive(Clone, Copy)]
pub struct Head<'a> {
    pub key: TypeId<'a>,
    pub kind: NominalKind,
    pub level: Level,
}

/// What a declaration at top level shows.
pub fn top_shown<'a>(module: &'a [u8], listed: &Listed<'a>) -> Shown<'a>
    ensures { shown_of result ≡ heads.top_shown «module».now (entry_view listed.now) }
{
    Shown {
        module,
        owner: None,
        own: written_level(listed),
        context: Level::Public,
    }
}

fn head_by<'a>(
    view: Viewpoint<'a>,
    module: &'a Name,
    name: &[u8],
    listed: &Listed<'a>,
) -> Option<Head<'a>>
    ensures { found_head result ≡ heads.head_by (view_of view.entry) «module».now name.now (entry_view listed.now) (entry_view listed.now).kind }
{
    match &listed.decl.kind {
        DeclKind::Nominal(kind, own, _, _) => {
            if own.text.as_slice() != name || !is_seen(view, top_shown(module.as_slice(), listed)) {
                return None;
            }
            Some(Head {
                key: TypeId::of(module, &own.text),
                kind: *kind,
                level: written_level(listed),
            })
        }
        _ => None,
    }
}

fn head_at<'a>(
    view: Viewpoint<'a>,
    names: &Names<'a>,
    name: &[u8],
    number: usize,
) -> Option<Head<'a>>
    ensures { found_head result ≡ head_at_number (view_of view.entry) (module_view names.now) name.now number }
{
    let listed = names.listing.entries.get(number)?;
    head_by(view, names.listing.name, name, listed)
}

/// The type or protocol of this name in a module. Of two of one name, which is a fault, the first one is meant.
pub fn head_in<'a>(view: Viewpoint<'a>, names: &Names<'a>, name: &[u8]) -> Option<Head<'a>>
    ensures { found_head result ≡ heads.head_in (view_of view.entry) (module_view names.now) name.now }
{
    let numbers = names.types_named(name);
    for &number in numbers {
        if let Some(head) = head_at(view, names, name, number) {
            return Some(head);
        }
    }
    None
}

fn is_language_type(name: &[u8]) -> bool
    ensures { result ≡ heads.is_language_type name.now }
{
    name == b"Int".as_slice() || name == b"Bool".as_slice() || name == b"String".as_slice()
}

fn language_type(name: &[u8]) -> Option<Head<'_>>
    ensures { found_head result ≡ heads.language_type name.now }
{
    if !is_language_type(name) {
        return None;
    }
    Some(Head {
        key: TypeId {
            module: b"Swift".as_slice(),
            base: name,
        },
        kind: NominalKind::Struct,
        level: Level::Public,
    })
}

/// The own module's, else what is seen of the import's, else the language's.
#[tactic(auto, unfolding(evo_names::specs::Heads::named))]
pub fn named<'a>(world: World<'a>, name: &'a [u8]) -> Option<Head<'a>>
    ensures { found_head result ≡ heads.named (world_of world.entry) name.now }
{
    if let Some(head) = head_in(world.top_view(), world.own, name) {
        return Some(head);
    }
    if let Some(names) = world.imported {
        if let Some(head) = head_in(world.top_view(), names, name) {
            return Some(head);
        }
    }
    language_type(name)
}

fn imported_named<'a>(world: World<'a>, module: &[u8], name: &[u8]) -> Option<Head<'a>>
    ensures { found_head result ≡ option_and_then (λ i. heads.head_in (heads.top_view (world_of world.entry)) i name.now) (heads.import_named (world_of world.entry) «module».now) }
{
    let names = world.imported?;
    if names.listing.name.as_slice() != module {
        return None;
    }
    head_in(world.top_view(), names, name)
}

/// What is named behind the name of its module.
#[tactic(auto, unfolding(evo_names::specs::Heads::qualified))]
pub fn qualified<'a>(world: World<'a>, module: &[u8], name: &'a [u8]) -> Option<Head<'a>>
    ensures { found_head result ≡ heads.qualified (world_of world.entry) «module».now name.now }
{
    let own = world.own;
    if own.listing.name.as_slice() == module {
        return head_in(world.top_view(), own, name);
    }
    if let Some(head) = imported_named(world, module, name) {
        return Some(head);
    }
    if module == b"Swift".as_slice() {
        return language_type(name);
    }
    None
}

fn unless_named<'a>(world: World<'a>, module: &'a [u8], name: &'a [u8]) -> Option<Head<'a>>
    ensures { found_head result ≡ heads.unless_some (heads.named (world_of world.entry) «module».now) (heads.qualified (world_of world.entry) «module».now name.now) }
{
    match named(world, module) {
        Some(_) => None,
        None => qualified(world, module, name),
    }
}

/// What is named where a protocol, a superclass or what is extended stands.
pub fn head_of<'a>(world: World<'a>, names: &'a [Name]) -> Option<Head<'a>>
    ensures { found_head result ≡ heads.head_of (world_of world.entry) names.now }
{
    match names {
        [name] => named(world, name.as_slice()),
        [module, name] => unless_named(world, module.as_slice(), name.as_slice()),
        _ => None,
    }
}

/// The protocol that is named.
pub fn protocol_named<'a>(world: World<'a>, written: &'a TypeName) -> Option<TypeId<'a>>
    ensures { types_of result ≡ heads.protocol_named (world_of world.entry) written.now }
{
    let head = head_of(world, written.names.as_slice())?;
    match head.kind {
        NominalKind::Protocol => Some(head.key),
        _ => None,
    }
}

/// The class that is named.
pub fn class_named<'a>(world: World<'a>, written: &'a TypeName) -> Option<TypeId<'a>>
    ensures { types_of result ≡ heads.class_named (world_of world.entry) written.now }
{
    let head = head_of(world, written.names.as_slice())?;
    match head.kind {
        NominalKind::Class => Some(head.key),
        _ => None,
    }
}

/// The type or protocol that a declaration is a member of.
pub fn owner_of<'a>(world: World<'a>, within: Within<'a>) -> Option<Head<'a>>
    ensures { found_head result ≡ heads.owner_of (world_of world.entry) (within_of within.entry) }
{
    match within {
        Within::Top => None,
        Within::Braces(_, name) => head_in(world.top_view(), world.own, name.as_slice()),
        Within::Extension(extended) => head_of(world, extended.names.as_slice()),
    }
}
