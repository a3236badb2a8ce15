//! Words before a declaration.

ghost use Rattle.std.specs.Prelude.{◌≡◌, ◌==◌};
ghost use Rattle.std.specs.List.{list_any};
ghost use Rattle.evo_tree.specs.Declarations as grammar;

use evo_tree::{Attr, AttrKind, Modifier, ModifierKind};

fn modifier_number(kind: ModifierKind) -> u8
    ensures { result ≡ grammar.modifier_number kind }
{
    match kind {
        ModifierKind::Open => 0,
        ModifierKind::Public => 1,
        ModifierKind::Internal => 2,
        ModifierKind::Private => 3,
        ModifierKind::Final => 4,
        ModifierKind::Static => 5,
        ModifierKind::Override => 6,
        ModifierKind::Mutating => 7,
    }
}

/// Whether a modifier of this kind is among these.
pub fn has_modifier(kind: ModifierKind, modifiers: &[Modifier]) -> bool
    ensures { result ≡ grammar.has_modifier kind modifiers.now }
{
    let number = modifier_number(kind);
    modifiers
        .iter()
        .any(|modifier| modifier_number(modifier.kind) == number)
}

fn attribute_number(kind: AttrKind) -> u8
    ensures { result ≡ grammar.attribute_number kind }
{
    match kind {
        AttrKind::Frozen => 0,
        AttrKind::Inlinable => 1,
        AttrKind::UsableFromInline => 2,
        AttrKind::Available(_) => 3,
    }
}

/// Whether an attribute of this kind is among these.
pub fn has_attribute(kind: AttrKind, attrs: &[Attr]) -> bool
    ensures { result ≡ grammar.has_attribute kind attrs.now }
{
    let number = attribute_number(kind);
    attrs
        .iter()
        .any(|attr| attribute_number(attr.kind) == number)
}
