//! What the load check finds of places, layouts and arguments.

ghost use Rattle.std.specs.Prelude.{◌≡◌, map};
ghost use Rattle.std.specs.List.{list_all, list_any};
ghost use Rattle.evo_code.specs.Named.{named};
ghost use Rattle.evo_code.specs.Loads.{same_kind, is_import, defined, has, has_optional, is_sized, is_place, is_argument, are_arguments};

use crate::instr::Arg;
use crate::layout::{Layout, Operand, Symbol};
use crate::named::is_named;
use crate::object::{Import, ImportKind, Object};
use evo_base::List;
use sqlite_items::Items;

/// What an object may have well or ill.
pub trait Checked {
    ghost use Rattle.std.specs.Prelude.{Bool};
    ghost use Rattle.evo_code.specs.declared.object.Object.{Object};

    ghost passes: { Object → Self → Bool };

    /// Whether it passes within this object.
    fn check(&self, object: &Object) -> bool
        ensures { result ≡ passes object.now self.now };
}

/// Whether all of these pass.
pub fn check_all<T: Checked>(items: &List<T>, object: &Object) -> bool
    ensures { result ≡ list_all (T.passes object.now) items.now }
{
    for item in items.as_slice() {
        if !item.check(object) {
            return false;
        }
    }
    true
}

fn same_kind(a: ImportKind, b: ImportKind) -> bool
    ensures { result ≡ same_kind a b }
{
    match a {
        ImportKind::Function => matches!(b, ImportKind::Function),
        ImportKind::Size => matches!(b, ImportKind::Size),
        ImportKind::Class => matches!(b, ImportKind::Class),
        ImportKind::Protocol => matches!(b, ImportKind::Protocol),
        ImportKind::Conformance => matches!(b, ImportKind::Conformance),
    }
}

fn imports(object: &Object, kind: ImportKind, symbol: &[u8]) -> bool
    ensures { result ≡ list_any (is_import kind symbol.now) object.now.imports }
{
    for import in object.imports.as_slice() {
        if import.symbol.as_slice() == symbol && same_kind(import.kind, kind) {
            return true;
        }
    }
    false
}

fn defines(object: &Object, kind: ImportKind, symbol: &[u8]) -> bool
    ensures { result ≡ named (defined object.now kind) symbol.now }
{
    match kind {
        ImportKind::Function => is_named(&object.functions, symbol),
        ImportKind::Size => is_named(&object.sizes, symbol),
        ImportKind::Class => is_named(&object.classes, symbol),
        ImportKind::Protocol => is_named(&object.protocols, symbol),
        ImportKind::Conformance => is_named(&object.conformances, symbol),
    }
}

/// Whether the object defines or imports the symbol with this kind.
pub fn has(object: &Object, kind: ImportKind, symbol: &Symbol) -> bool
    ensures { result ≡ has object.now kind symbol.now }
{
    defines(object, kind, symbol.as_slice()) || imports(object, kind, symbol.as_slice())
}

/// The same of a symbol that may be left out.
pub fn has_optional(object: &Object, kind: ImportKind, symbol: &Option<Symbol>) -> bool
    ensures { result ≡ has_optional object.now kind symbol.now }
{
    match symbol {
        None => true,
        Some(symbol) => has(object, kind, symbol),
    }
}

/// Whether each symbol of a layout has a size.
#[cycle(sized)]
pub fn is_sized(layout: &Layout, object: &Object) -> bool
    ensures { result ≡ is_sized object.now layout.now }
{
    match layout {
        Layout::Words(_) => true,
        Layout::SizeOf(symbol) => has(object, ImportKind::Size, symbol),
        Layout::Sum(parts) => are_sized(parts, object),
        Layout::Max(parts) => are_sized(parts, object),
    }
}

#[cycle(sized)]
fn are_sized(parts: &Items<Layout>, object: &Object) -> bool
    ensures { result ≡ list_all (λ b. b) (map (is_sized object.now) parts.now) }
{
    for part in parts.as_slice() {
        if !is_sized(part, object) {
            return false;
        }
    }
    true
}

/// Whether each symbol of a place has a size.
pub fn is_place(place: &Operand, object: &Object) -> bool
    ensures { result ≡ is_place object.now place.now }
{
    is_sized(&place.offset, object)
}

impl Checked for Layout {
    ghost passes = { is_sized };

    fn check(&self, object: &Object) -> bool {
        is_sized(self, object)
    }
}

impl Checked for Operand {
    ghost passes = { is_place };

    fn check(&self, object: &Object) -> bool {
        is_place(self, object)
    }
}

impl Checked for Arg {
    ghost passes = { is_argument };

    fn check(&self, object: &Object) -> bool {
        is_place(&self.place, object) && is_sized(&self.layout, object)
    }
}

/// Whether the arguments of a call and the place of its result pass.
pub fn are_arguments(args: &List<Arg>, to: &Operand, size: &Layout, object: &Object) -> bool
    ensures { result ≡ are_arguments object.now args.now to.now size.now }
{
    check_all(args, object) && is_place(to, object) && is_sized(size, object)
}
