//! What is seen from where.

ghost use Rattle.std.specs.Prelude.{◌≡◌};
ghost use Rattle.std.specs.Str.{IsUtf8};
ghost use Rattle.evo_declarations.specs.Views.{key_of_type, shown_of, types_of, view_of};
ghost use Rattle.evo_names.specs.Heads.{type_key};
ghost use Rattle.evo_names.specs.Seen as seen;

use crate::level::{Level, is_private, is_public, lesser};
use crate::type_id::TypeId;
use evo_base::Name;

impl<'a> TypeId<'a> {
    /// The type or protocol of this name in a module.
    pub fn of(module: &'a Name, base: &'a Name) -> TypeId<'a>
        ensures { key_of_type result ≡ type_key «module».now base.now }
    {
        TypeId {
            module: module.as_slice(),
            base: base.as_slice(),
        }
    }

    /// The name of the module.
    pub fn module_text(self) -> &'a [u8]
        ensures value { result.now ≡ self.entry.«module».now }
        ensures utf8 { IsUtf8 result.now }
    {
        self.module
    }

    /// The name within the module.
    pub fn base_text(self) -> &'a [u8]
        ensures value { result.now ≡ self.entry.base.now }
        ensures utf8 { IsUtf8 result.now }
    {
        self.base
    }
}

/// Where one looks from: the module, and the type in whose braces or extensions one stands.
#[derive(Clone, Copy)]
pub struct Viewpoint<'a> {
    pub module: &'a [u8],
    pub type_round: Option<TypeId<'a>>,
}

/// What a declaration shows: its module, the type that it is a member of, its own level, and that of what it stands in.
#[derive(Clone, Copy)]
pub struct Shown<'a> {
    pub module: &'a [u8],
    pub owner: Option<TypeId<'a>>,
    pub own: Level,
    pub context: Level,
}

/// Whether two types are the same.
pub fn same_type(first: TypeId<'_>, second: TypeId<'_>) -> bool
    ensures { result ≡ seen.same_type (key_of_type first.entry) (key_of_type second.entry) }
{
    first.module == second.module && first.base == second.base
}

fn same_owner(round: Option<TypeId<'_>>, owner: Option<TypeId<'_>>) -> bool
    ensures { result ≡ seen.same_owner (types_of round.entry) (types_of owner.entry) }
{
    match (round, owner) {
        (_, None) => true,
        (None, Some(_)) => false,
        (Some(first), Some(second)) => same_type(first, second),
    }
}

/// Whether what shows this is seen from there.
#[tactic(auto, unfolding(evo_names::specs::Seen::is_seen))]
pub fn is_seen(view: Viewpoint<'_>, shown: Shown<'_>) -> bool
    ensures { result ≡ seen.is_seen (view_of view.entry) (shown_of shown.entry) }
{
    is_public(lesser(shown.own, shown.context))
        || (view.module == shown.module
            && (!is_private(shown.own) || same_owner(view.type_round, shown.owner)))
}
