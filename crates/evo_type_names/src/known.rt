//! What is known of written types.

ghost use Rattle.std.specs.Prelude.{◌≡◌, ◌↔◌, IsTrue};
ghost use Rattle.evo_declarations.specs.Views.{key_of_type};
ghost use Rattle.evo_declarations.specs.Worlds.{world_of};
ghost use Rattle.evo_members.specs.Located.{around_of, self_of};
ghost use Rattle.evo_type_names.specs.Known.{AllKnown, IsKnownAt, is_place};
ghost use Rattle.evo_names.specs.Listed.{World};
ghost use Rattle.evo_members.specs.declared.located.Around.TheVariants as around;

use crate::meaning::Meaning;
use evo_declarations::{TypeId, same_type};
use evo_members::{Around, Located, SelfType};

/// What a `typealias` or a default means, or that it means nothing.
#[derive(Drop)]
pub struct Known<'a> {
    pub located: Located<'a>,
    pub found: Option<Meaning<'a>>,
}

fn is_same_self(first: SelfType<'_>, second: SelfType<'_>) -> bool
    ensures { IsTrue result ↔ (self_of first.entry ≡ self_of second.entry) }
{
    match (first, second) {
        (SelfType::Named(one), SelfType::Named(other)) => same_type(one, other),
        (SelfType::Named(_), SelfType::Parameter) => false,
        (SelfType::Parameter, SelfType::Named(_)) => false,
        (SelfType::Parameter, SelfType::Parameter) => true,
    }
}

fn is_same_protocol(
    first: TypeId<'_>,
    own: SelfType<'_>,
    second: TypeId<'_>,
    other: SelfType<'_>,
) -> bool
    ensures { IsTrue result ↔ (around_of (around.InProtocol first.entry own.entry) ≡ around_of (around.InProtocol second.entry other.entry)) }
{
    same_type(first, second) && is_same_self(own, other)
}

fn is_same_around(first: Around<'_>, second: Around<'_>) -> bool
    ensures { IsTrue result ↔ (around_of first.entry ≡ around_of second.entry) }
{
    match (first, second) {
        (Around::Nowhere, Around::Nowhere) => true,
        (Around::InType(one), Around::InType(other)) => same_type(one, other),
        (Around::InProtocol(one, own), Around::InProtocol(other, others_own)) => {
            is_same_protocol(one, own, other, others_own)
        }
        (Around::Nowhere, _) => false,
        (Around::InType(_), _) => false,
        (Around::InProtocol(_, _), _) => false,
    }
}

/// Whether the same is written at both.
pub(crate) fn is_same_place(first: Located<'_>, second: Located<'_>) -> bool
    ensures { IsTrue result ↔ (is_place first.entry ≡ is_place second.entry) }
{
    first.number == second.number && is_same_around(first.around, second.around)
}

/// What is known of a place.
pub(crate) fn known_at<'k, 'a>(
    known: &'k [Known<'a>],
    located: Located<'a>,
) -> Option<&'k Known<'a>>
    ensures { IsKnownAt known.now located.entry result }
{
    for one in known {
        if is_same_place(one.located, located) {
            return Some(one);
        }
    }
    None
}
