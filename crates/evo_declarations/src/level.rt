//! Levels of access.

ghost use Rattle.std.specs.Prelude.{◌≡◌, nat_lt};
ghost use Rattle.evo_declarations.specs.Views.{entry_view, level_of};
ghost use Rattle.evo_names.specs.Seen as seen;

use crate::listed::Listed;
use crate::words::{has_attribute, has_modifier};
use evo_tree::{AttrKind, ModifierKind};

/// How far a declaration is seen.
#[derive(Clone, Copy)]
pub enum Level {
    Private,
    Internal,
    /// By inlinable bodies of other modules, and not by their sources.
    Usable,
    /// `public` or `open`.
    Public,
}

fn rank(level: Level) -> u8
    ensures { result ≡ seen.rank (level_of level) }
{
    match level {
        Level::Private => 0,
        Level::Internal => 1,
        Level::Usable => 2,
        Level::Public => 3,
    }
}

/// Whether the first is seen less far than the second.
pub fn is_less(first: Level, second: Level) -> bool
    ensures { result ≡ nat_lt (seen.rank (level_of first)) (seen.rank (level_of second)) }
{
    rank(first) < rank(second)
}

/// The one that is seen less far.
pub fn lesser(first: Level, second: Level) -> Level
    ensures { level_of result ≡ seen.lesser (level_of first) (level_of second) }
{
    if is_less(first, second) {
        first
    } else {
        second
    }
}

/// Whether it is `public` or `open`.
pub fn is_public(level: Level) -> bool
    ensures { result ≡ seen.is_public (level_of level) }
{
    matches!(level, Level::Public)
}

pub(crate) fn is_private(level: Level) -> bool
    ensures { result ≡ seen.is_private (level_of level) }
{
    matches!(level, Level::Private)
}

/// What is written of a declaration: an access, and whether inlinable bodies may use it.
pub fn written_level(listed: &Listed<'_>) -> Level
    ensures { level_of result ≡ seen.written_level (entry_view listed.now) }
{
    let modifiers = listed.decl.modifiers.as_slice();
    let attrs = listed.decl.attrs.as_slice();
    if has_modifier(ModifierKind::Open, modifiers)
        || has_modifier(ModifierKind::Public, modifiers)
    {
        Level::Public
    } else if has_modifier(ModifierKind::Private, modifiers) {
        Level::Private
    } else if has_attribute(AttrKind::UsableFromInline, attrs)
        || has_attribute(AttrKind::Inlinable, attrs)
    {
        Level::Usable
    } else {
        Level::Internal
    }
}
