//! Declarations in the world of their module, and what they show.

ghost use Rattle.std.specs.Prelude.{◌≡◌};
ghost use Rattle.evo_declarations.specs.Views.{entry_view, key_of_type, level_of, shown_of, view_of};
ghost use Rattle.evo_declarations.specs.Worlds.{world_of};
ghost use Rattle.evo_meeting.specs.DeclaredNames.{declaration_view};
ghost use Rattle.evo_keys.specs.Members.{member_view};
ghost use Rattle.evo_names.specs.Heads as heads;

use evo_declarations::{
    Level, Listed, Shown, TypeId, Viewpoint, Within, World, is_seen, owner_of, same_type,
    written_level,
};
use evo_tree::{DeclKind, NominalKind};

/// A declaration, and what the names of its module have round them.
#[derive(Clone, Copy)]
pub struct Member<'a> {
    pub world: World<'a>,
    pub listed: Listed<'a>,
}

/// Whether a declaration is a member of this type or protocol.
pub fn is_member_of(id: TypeId<'_>, member: Member<'_>) -> bool
    ensures { result ≡ heads.is_member_of (key_of_type id.entry) (member_view member.entry) }
{
    let listed = member.listed;
    match owner_of(member.world, listed.within) {
        Some(head) => same_type(head.key, id),
        None => false,
    }
}

fn has_own_access(listed: &Listed<'_>) -> bool
    ensures { result ≡ heads.has_own_access (entry_view listed.now).within (entry_view listed.now).kind }
{
    if let Within::Braces(NominalKind::Protocol, _) = listed.within {
        return false;
    }
    !matches!(&listed.decl.kind, DeclKind::Case(_, _))
}

fn own_level(listed: &Listed<'_>) -> Level
    ensures { level_of result ≡ heads.own_level (entry_view listed.now) }
{
    if has_own_access(listed) {
        written_level(listed)
    } else {
        Level::Public
    }
}

/// What a declaration shows.
#[tactic(auto, unfolding(evo_names::specs::Heads::shown))]
pub fn shown(member: Member<'_>) -> Shown<'_>
    ensures { shown_of result ≡ heads.shown (member_view member.entry) }
{
    let world = member.world;
    let home = world.own;
    let module = home.listing.name.as_slice();
    let listed = member.listed;
    let own = own_level(&listed);
    match owner_of(world, listed.within) {
        Some(head) => Shown {
            module,
            owner: Some(head.key),
            own,
            context: head.level,
        },
        None => Shown {
            module,
            owner: None,
            own,
            context: Level::Public,
        },
    }
}

/// Whether a declaration is seen from there.
pub fn sees(view: Viewpoint<'_>, member: Member<'_>) -> bool
    ensures { result ≡ heads.sees (view_of view.entry) (member_view member.entry) }
{
    is_seen(view, shown(member))
}
