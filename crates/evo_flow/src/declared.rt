//! Stored properties, superclasses and enums among declarations.

ghost use Rattle.std.specs.Prelude.{◌≡◌, ◌||◌};
ghost use Rattle.std.specs.List.{list_any};
ghost use Rattle.evo_flow.specs.Scenes as spec;
ghost use Rattle.evo_flow.specs.Scenes.{scene_of};

use crate::keys::is_same;
use crate::site::Site;
use evo_base::Key;
use evo_resolved::{Kept, ModuleKind, RDecl, RDeclKind, Standing};
use evo_tree::{Attr, AttrKind, Introducer, NominalKind};

fn is_client(form: ModuleKind) -> bool
    ensures { result ≡ spec.is_client form }
{
    match form {
        ModuleKind::Client => true,
        ModuleKind::Library => false,
        ModuleKind::Interface => false,
    }
}

fn in_braces_of(key: &Key, standing: &Standing) -> bool
    ensures { result ≡ spec.in_braces_of key.now standing.now }
{
    match standing {
        Standing::TopLevel => false,
        Standing::Braces(_, own) => is_same(own, key),
        Standing::Extension(_, _) => false,
    }
}

fn is_stored(kind: &RDeclKind) -> bool
    ensures { result ≡ spec.is_stored kind.now }
{
    match kind {
        RDeclKind::Property(_, _, Kept::Stored) => true,
        _ => false,
    }
}

/// Whether a property is a `let`.
pub(crate) fn is_let(kind: &RDeclKind) -> bool
    ensures { result ≡ spec.is_let kind.now }
{
    match kind {
        RDeclKind::Property(Introducer::Let, _, _) => true,
        _ => false,
    }
}

/// Whether it is a stored property of the type.
pub(crate) fn is_stored_of(key: &Key, declaration: &RDecl) -> bool
    ensures { result ≡ spec.is_stored_of key.now declaration.now }
{
    if is_stored(&declaration.kind) {
        return in_braces_of(key, &declaration.standing);
    }
    false
}

fn names_superclass(kind: &RDeclKind) -> bool
    ensures { result ≡ spec.names_superclass kind.now }
{
    match kind {
        RDeclKind::Nominal(_, Some(_), _) => true,
        _ => false,
    }
}

fn is_subclass_by(key: &Key, declaration: &RDecl) -> bool
    ensures { result ≡ spec.is_subclass_by key.now declaration.now }
{
    if names_superclass(&declaration.kind) {
        return is_same(&declaration.key, key);
    }
    false
}

fn is_subclass_among(key: &Key, declarations: &[RDecl]) -> bool
    ensures { result ≡ list_any (spec.is_subclass_by key.now) declarations.now }
{
    for declaration in declarations {
        if is_subclass_by(key, declaration) {
            return true;
        }
    }
    false
}

/// Whether a class has a superclass.
pub(crate) fn is_subclass(site: Site<'_>, key: &Key) -> bool
    ensures { result ≡ spec.is_subclass (scene_of site.entry) key.now }
{
    if is_subclass_among(key, site.own) {
        return true;
    }
    is_subclass_among(key, site.imported)
}

fn is_enum(kind: &RDeclKind) -> bool
    ensures { result ≡ spec.is_enum kind.now }
{
    match kind {
        RDeclKind::Nominal(NominalKind::Enum, _, _) => true,
        _ => false,
    }
}

fn is_enum_of(key: &Key, declaration: &RDecl) -> bool
    ensures { result ≡ spec.is_enum_of key.now declaration.now }
{
    if is_enum(&declaration.kind) {
        return is_same(&declaration.key, key);
    }
    false
}

fn is_case(kind: &RDeclKind) -> bool
    ensures { result ≡ spec.is_case kind.now }
{
    match kind {
        RDeclKind::Case(_) => true,
        _ => false,
    }
}

/// Whether it is a case of the enum.
pub(crate) fn is_case_of(key: &Key, declaration: &RDecl) -> bool
    ensures { result ≡ spec.is_case_of key.now declaration.now }
{
    if is_case(&declaration.kind) {
        return in_braces_of(key, &declaration.standing);
    }
    false
}

fn says_frozen(attr: Attr) -> bool
    ensures { result ≡ spec.says_frozen attr }
{
    match attr.kind {
        AttrKind::Frozen => true,
        AttrKind::Inlinable => false,
        AttrKind::UsableFromInline => false,
        AttrKind::Available(_) => false,
    }
}

fn is_frozen(declaration: &RDecl) -> bool
    ensures { result ≡ spec.is_frozen declaration.now }
{
    for attr in declaration.attrs.as_slice() {
        if says_frozen(*attr) {
            return true;
        }
    }
    false
}

// An enum of the key that is frozen, or any where none can get further cases.
fn is_settled(key: &Key, all: bool, declaration: &RDecl) -> bool
    ensures { result ≡ spec.is_settled key.now all declaration.now }
{
    if !is_enum_of(key, declaration) {
        return false;
    }
    if all {
        return true;
    }
    is_frozen(declaration)
}

fn is_settled_among(key: &Key, all: bool, declarations: &[RDecl]) -> bool
    ensures { result ≡ list_any (spec.is_settled key.now all) declarations.now }
{
    for declaration in declarations {
        if is_settled(key, all, declaration) {
            return true;
        }
    }
    false
}

/// Whether a `switch` may list the cases of an enum alone.
pub(crate) fn is_closed(site: Site<'_>, key: &Key) -> bool
    ensures { result ≡ spec.is_closed (scene_of site.entry) key.now }
{
    let all = is_client(site.form) || !site.inlinable;
    if is_settled_among(key, all, site.own) {
        return true;
    }
    is_settled_among(key, false, site.imported)
}
