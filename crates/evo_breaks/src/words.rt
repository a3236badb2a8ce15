//! What the words before a declaration say to the rules.

ghost use Rattle.std.specs.Prelude.{◌≡◌};
ghost use Rattle.std.specs.List.{list_all};
ghost use Rattle.evo_tree.specs.Declarations.{has_modifier as has_word};
ghost use Rattle.evo_tree.specs.declared.declaration.Attr.{Attr as TheAttr};
ghost use Rattle.evo_tree.specs.declared.declaration.ModifierKind.TheVariants as modifier;
ghost use Rattle.evo_breaks.specs.Words as words;

use evo_base::Release;
use evo_declarations::{has_attribute, has_modifier};
use evo_resolved::RDecl;
use evo_tree::{Attr, AttrKind, Availability, ModifierKind};

pub(crate) fn is_open(decl: &RDecl) -> bool
    ensures { result ≡ words.is_open decl.now }
{
    has_modifier(ModifierKind::Open, decl.modifiers.as_slice())
}

pub(crate) fn is_public(decl: &RDecl) -> bool
    ensures { result ≡ words.is_public decl.now }
{
    is_open(decl) || has_modifier(ModifierKind::Public, decl.modifiers.as_slice())
}

pub(crate) fn is_usable(decl: &RDecl) -> bool
    ensures { result ≡ words.is_usable decl.now }
{
    is_public(decl) || has_attribute(AttrKind::UsableFromInline, decl.attrs.as_slice())
}

pub(crate) fn is_final(decl: &RDecl) -> bool
    ensures { result ≡ words.is_final decl.now }
{
    has_modifier(ModifierKind::Final, decl.modifiers.as_slice())
}

pub(crate) fn is_static(decl: &RDecl) -> bool
    ensures { result ≡ words.is_static decl.now }
{
    has_modifier(ModifierKind::Static, decl.modifiers.as_slice())
}

pub(crate) fn is_mutating(decl: &RDecl) -> bool
    ensures { result ≡ words.is_mutating decl.now }
{
    has_modifier(ModifierKind::Mutating, decl.modifiers.as_slice())
}

pub(crate) fn is_overriding(decl: &RDecl) -> bool
    ensures { result ≡ has_word modifier.Override decl.now.modifiers }
{
    has_modifier(ModifierKind::Override, decl.modifiers.as_slice())
}

pub(crate) fn is_frozen(decl: &RDecl) -> bool
    ensures { result ≡ words.is_frozen decl.now }
{
    has_attribute(AttrKind::Frozen, decl.attrs.as_slice())
}

fn is_later(a: Release, b: Release) -> bool
    ensures { result ≡ words.is_later a b }
{
    a.major > b.major || a.major == b.major && a.minor > b.minor
}

fn release_of(kind: AttrKind) -> Release
    ensures { result ≡ words.release_of kind }
{
    match kind {
        AttrKind::Available(Availability::Introduced(release)) => release,
        _ => Release { major: 0, minor: 0 },
    }
}

fn is_later_than_all(attrs: &[Attr], release: Release) -> bool
    ensures { result ≡ list_all (λ (a : TheAttr). words.is_later release (words.release_of a.kind)) attrs.now }
{
    attrs
        .iter()
        .all(|attr| is_later(release, release_of(attr.kind)))
}

fn is_after(attrs: &[Attr], release: Release) -> bool
    ensures { result ≡ words.is_after attrs.now release }
{
    is_later(release, Release { major: 0, minor: 0 }) && is_later_than_all(attrs, release)
}

/// Whether the greatest release that the second attributes name is later than that of the first.
pub(crate) fn is_introduced_later(old: &[Attr], new: &[Attr]) -> bool
    ensures { result ≡ words.is_introduced_later old.now new.now }
{
    new.iter().any(|attr| is_after(old, release_of(attr.kind)))
}
