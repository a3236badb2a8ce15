//! `typealias`es of types and protocols.

ghost use Rattle.std.specs.Prelude.{◌≡◌, false, true};
ghost use Rattle.std.specs.Option.{option_map};
ghost use Rattle.evo_declarations.specs.Views.{entry_view, key_of_type, level_of, shown_of, view_of, within_of};
ghost use Rattle.evo_declarations.specs.Worlds.{home_of, world_of};
ghost use Rattle.evo_members.specs.Located.{around_of, start_of, starts_of};
ghost use Rattle.evo_members.specs.Sought.{first_alias, is_alias_named, number_sought, stands, test_of};
ghost use Rattle.evo_members.specs.Views.{declared_of};
ghost use Rattle.evo_names.specs.Heads as heads;
ghost use Rattle.evo_names.specs.Listed as names;
ghost use Rattle.evo_names.specs.Meets.{same_name};
ghost use Rattle.evo_names.specs.Written as written;

use crate::declared::Declared;
use crate::located::{Around, Located};
use crate::lookup::{level_of_type, superclass};
use crate::space::Space;
use evo_declarations::{
    Level, Shown, TypeId, Viewpoint, Within, World, is_less, is_public, is_seen, lesser, owner_of,
    same_type, written_level,
};
use evo_tree::{DeclKind, NominalKind};

/// Which members count.
#[derive(Clone, Copy)]
pub enum Test<'a> {
    /// Those that are seen from there.
    Sees(Viewpoint<'a>),
    /// Those that may meet an associated type in the conformance of a type to a protocol.
    MayMeet(TypeId<'a>, TypeId<'a>),
}

/// The `typealias` of this name that counts.
#[derive(Clone, Copy)]
pub struct Sought<'a> {
    pub name: &'a [u8],
    pub test: Test<'a>,
}

fn in_braces(within: Within<'_>) -> bool
    ensures { result ≡ heads.in_braces (within_of within.entry) }
{
    matches!(within, Within::Braces(_, _))
}

fn is_member_of<'a>(world: World<'a>, declared: Declared<'a>, key: TypeId<'_>) -> bool
    ensures { result ≡ heads.is_member_of (key_of_type key.entry) (declared_of world.entry declared.entry) }
{
    match owner_of(world.at(declared.home), declared.listed.within) {
        Some(head) => same_type(head.key, key),
        None => false,
    }
}

/// Whether it is a member, in braces or in an extension.
pub(crate) fn is_there<'a>(
    world: World<'a>,
    declared: Declared<'a>,
    key: TypeId<'_>,
    braces: bool,
) -> bool
    ensures { result ≡ stands braces (key_of_type key.entry) (declared_of world.entry declared.entry) }
{
    in_braces(declared.listed.within) == braces && is_member_of(world, declared, key)
}

fn has_own_access(declared: Declared<'_>) -> bool
    ensures { result ≡ heads.has_own_access (entry_view declared.entry.listed).within (entry_view declared.entry.listed).kind }
{
    match declared.listed.within {
        Within::Braces(NominalKind::Protocol, _) => false,
        _ => !matches!(&declared.listed.decl.kind, DeclKind::Case(_, _)),
    }
}

fn own_level(declared: Declared<'_>) -> Level
    ensures { level_of result ≡ heads.own_level (entry_view declared.entry.listed) }
{
    if has_own_access(declared) {
        written_level(&declared.listed)
    } else {
        Level::Public
    }
}

/// What a declaration shows.
#[tactic(auto, unfolding(evo_names::specs::Heads::shown))]
pub(crate) fn shown<'a>(world: World<'a>, declared: Declared<'a>) -> Shown<'a>
    ensures { shown_of result ≡ heads.shown (declared_of world.entry declared.entry) }
{
    let home = world.at(declared.home);
    let own = home.own;
    let module = own.listing.name.as_slice();
    let level = own_level(declared);
    match owner_of(home, declared.listed.within) {
        Some(head) => Shown {
            module,
            owner: Some(head.key),
            own: level,
            context: head.level,
        },
        None => Shown {
            module,
            owner: None,
            own: level,
            context: Level::Public,
        },
    }
}

fn seen_level<'a>(world: World<'a>, declared: Declared<'a>) -> Level
    ensures { level_of result ≡ written.seen_level (declared_of world.entry declared.entry) }
{
    let shows = shown(world, declared);
    lesser(shows.own, shows.context)
}

fn is_own_conformance<'a>(world: World<'a>, key: TypeId<'_>, protocol: TypeId<'_>) -> bool
    ensures { result ≡ written.is_own_conformance (world_of world.entry) (key_of_type key.entry) (key_of_type protocol.entry) }
{
    let own = world.own;
    let module = own.listing.name.as_slice();
    key.module == module || protocol.module == module
}

fn stands_in_own<'a>(world: World<'a>, declared: Declared<'a>) -> bool
    ensures { result ≡ same_name (declared_of world.entry declared.entry).world.own.name (world_of world.entry).own.name }
{
    let own = world.own;
    let home = world.at(declared.home);
    let other = home.own;
    other.listing.name.as_slice() == own.listing.name.as_slice()
}

fn may_meet<'a>(
    space: &Space<'a>,
    key: TypeId<'a>,
    protocol: TypeId<'a>,
    declared: Declared<'a>,
) -> bool
    ensures { result ≡ written.may_meet (world_of space.now.world) (key_of_type key.entry) (key_of_type protocol.entry) (declared_of space.now.world declared.entry) }
{
    let level = seen_level(space.world, declared);
    let least = lesser(level_of_type(space, key), level_of_type(space, protocol));
    !is_less(level, least)
        && (!is_own_conformance(space.world, key, protocol)
            || stands_in_own(space.world, declared)
            || is_public(level))
}

fn passes<'a>(space: &Space<'a>, test: Test<'a>, declared: Declared<'a>) -> bool
    ensures { result ≡ test_of (world_of space.now.world) test.entry (declared_of space.now.world declared.entry) }
{
    match test {
        Test::Sees(view) => is_seen(view, shown(space.world, declared)),
        Test::MayMeet(key, protocol) => may_meet(space, key, protocol, declared),
    }
}

fn is_alias<'a>(declared: Declared<'a>, name: &[u8]) -> bool
    ensures { result ≡ is_alias_named name.now (entry_view declared.entry.listed).kind }
{
    match &declared.listed.decl.kind {
        DeclKind::TypeAlias(own, _) => own.text.as_slice() == name,
        _ => false,
    }
}

fn is_sought<'a>(
    space: &Space<'a>,
    key: TypeId<'a>,
    sought: Sought<'a>,
    braces: bool,
    number: usize,
) -> bool
    ensures { result ≡ number_sought (world_of space.now.world) (test_of (world_of space.now.world) sought.entry.test) (key_of_type key.entry) sought.entry.name.now braces number }
{
    match space.at(number) {
        Some(declared) => {
            is_alias(declared, sought.name)
                && is_there(space.world, declared, key, braces)
                && passes(space, sought.test, declared)
        }
        None => false,
    }
}

fn alias_in<'a>(
    space: &Space<'a>,
    key: TypeId<'a>,
    sought: Sought<'a>,
    braces: bool,
    around: Around<'a>,
) -> Option<Located<'a>>
    ensures { option_map (start_of (world_of space.now.world)) result ≡ first_alias (world_of space.now.world) (test_of (world_of space.now.world) sought.entry.test) (around_of around.entry) (key_of_type key.entry) sought.entry.name.now braces }
{
    let numbers = space.aliases_named(sought.name);
    for &number in numbers {
        if is_sought(space, key, sought, braces, number) {
            return Some(Located { number, around });
        }
    }
    None
}

/// One that the type itself has, in its braces before its extensions.
pub fn alias_of<'a>(
    space: &Space<'a>,
    key: TypeId<'a>,
    sought: Sought<'a>,
    around: Around<'a>,
) -> Option<Located<'a>>
    ensures { option_map (start_of (world_of space.now.world)) result ≡ written.alias_of (world_of space.now.world) (test_of (world_of space.now.world) sought.entry.test) (around_of around.entry) (key_of_type key.entry) sought.entry.name.now }
{
    match alias_in(space, key, sought, true, around) {
        Some(located) => Some(located),
        None => alias_in(space, key, sought, false, around),
    }
}

/// The nearest one of a type and its ancestors.
#[tactic(auto, unfolding(evo_names::specs::Heads::lineage))]
pub fn nearest_alias<'a>(
    space: &Space<'a>,
    key: TypeId<'a>,
    sought: Sought<'a>,
) -> Option<Located<'a>>
    ensures { option_map (start_of (world_of space.now.world)) result ≡ written.nearest_alias (world_of space.now.world) (test_of (world_of space.now.world) sought.entry.test) (key_of_type key.entry) sought.entry.name.now }
{
    if let Some(located) = alias_of(space, key, sought, Around::InType(key)) {
        return Some(located);
    }
    let mut class = key;
    for _step in 0..space.count() {
        class = superclass(space, class)?;
        if let Some(located) = alias_of(space, class, sought, Around::InType(class)) {
            return Some(located);
        }
    }
    None
}
