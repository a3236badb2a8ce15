//! What an interface declares under a key.

ghost use Rattle.std.specs.Prelude.{◌≡◌, MatchOption, Some, None};
ghost use Rattle.evo_base.specs.declared.key.Key.{Key};
ghost use Rattle.evo_resolved.specs.declared.declaration.RDecl.{RDecl};
ghost use Rattle.evo_resolved.specs.declared.declaration.Standing.TheVariants as standing;
ghost use Rattle.evo_breaks.specs.Found as found;
ghost use Rattle.evo_breaks.specs.Found.{HasOneForEachKey};

use crate::sort::Sort;
use crate::words::is_overriding;
use evo_base::Key;
use evo_resolved::{RConformance, RDecl, RDeclKind, RModule, Standing};
use evo_tree::NominalKind;

/// The type or protocol of a member.
pub(crate) fn owner_of(decl: &RDecl) -> Option<&Key>
    ensures { MatchOption result (found.owner_of decl.now ≡ None) (λ k. found.owner_of decl.now ≡ Some k.now) }
{
    match &decl.standing {
        Standing::TopLevel => None,
        Standing::Braces(_, key) => Some(key),
        Standing::Extension(_, key) => Some(key),
    }
}

pub(crate) fn is_in_extension(decl: &RDecl) -> bool
    ensures { result ≡ found.is_in_extension decl.now.standing }
{
    matches!(&decl.standing, Standing::Extension(_, _))
}

fn member_sort(standing: &Standing) -> Sort
    ensures { result ≡ found.member_sort standing.now }
{
    match standing {
        Standing::Braces(NominalKind::Protocol, _) => Sort::Requirement,
        _ => Sort::Member,
    }
}

/// What a declaration is to the rules.
pub(crate) fn sort_of(decl: &RDecl) -> Sort
    ensures { result ≡ found.sort_of decl.now }
{
    match &decl.kind {
        RDeclKind::Function(_) => {
            if is_overriding(decl) {
                Sort::Untried
            } else {
                member_sort(&decl.standing)
            }
        }
        RDeclKind::Initialiser(_) | RDeclKind::Property(_, _, _) => member_sort(&decl.standing),
        RDeclKind::AssociatedType(_, _) => Sort::AssociatedType,
        RDeclKind::Case(_) => Sort::Case,
        RDeclKind::Nominal(_, _, _) => Sort::Nominal,
        RDeclKind::TypeAlias(_) | RDeclKind::Extension(_, _, _) => Sort::Untried,
    }
}

fn is_same_sort(a: Sort, b: Sort) -> bool
    ensures { result ≡ found.same_sort a b }
{
    match a {
        Sort::Nominal => matches!(b, Sort::Nominal),
        Sort::Member => matches!(b, Sort::Member),
        Sort::Requirement => matches!(b, Sort::Requirement),
        Sort::AssociatedType => matches!(b, Sort::AssociatedType),
        Sort::Case => matches!(b, Sort::Case),
        Sort::Untried => matches!(b, Sort::Untried),
    }
}

/// The declaration of a key.
#[tactic(auto, using(crate::proofs::Finding::declared_some, crate::proofs::Finding::declared_none))]
pub(crate) fn declared<'a>(interface: &'a RModule, key: &Key) -> Option<&'a RDecl>
    requires { HasOneForEachKey interface.now }
    ensures { MatchOption result (found.declared interface.now key.now ≡ None) (λ d. found.declared interface.now key.now ≡ Some d.now) }
{
    match interface.decls.find(key) {
        Some(decl) => Some(decl),
        None => None,
    }
}

/// The conformance of a key.
#[tactic(auto, using(crate::proofs::Finding::conformance_some, crate::proofs::Finding::conformance_none))]
pub(crate) fn conformance_in<'a>(interface: &'a RModule, key: &Key) -> Option<&'a RConformance>
    requires { HasOneForEachKey interface.now }
    ensures { MatchOption result (found.conformance_in interface.now key.now ≡ None) (λ c. found.conformance_in interface.now key.now ≡ Some c.now) }
{
    match interface.conformances.find(key) {
        Some(conformance) => Some(conformance),
        None => None,
    }
}

/// The declaration of this sort under a key.
#[tactic(auto, unfolding(crate::specs::Found::declared_as))]
pub(crate) fn declared_as<'a>(sort: Sort, interface: &'a RModule, key: &Key) -> Option<&'a RDecl>
    requires { HasOneForEachKey interface.now }
    ensures { MatchOption result (found.declared_as sort interface.now key.now ≡ None) (λ d. found.declared_as sort interface.now key.now ≡ Some d.now) }
{
    let decl = declared(interface, key)?;
    if is_same_sort(sort, sort_of(decl)) {
        return Some(decl);
    }
    None
}

/// The type or protocol of a key.
pub(crate) fn type_in<'a>(interface: &'a RModule, key: &Key) -> Option<&'a RDecl>
    requires { HasOneForEachKey interface.now }
    ensures { MatchOption result (found.type_in interface.now key.now ≡ None) (λ d. found.type_in interface.now key.now ≡ Some d.now) }
{
    declared_as(Sort::Nominal, interface, key)
}

/// The type or protocol of a member, as an interface declares it.
pub(crate) fn type_round<'a>(interface: &'a RModule, decl: &RDecl) -> Option<&'a RDecl>
    requires { HasOneForEachKey interface.now }
    ensures { MatchOption result (found.type_round interface.now decl.now ≡ None) (λ d. found.type_round interface.now decl.now ≡ Some d.now) }
{
    match owner_of(decl) {
        Some(key) => type_in(interface, key),
        None => None,
    }
}

fn is_same_kind(a: NominalKind, b: NominalKind) -> bool
    ensures { result ≡ found.same_kind a b }
{
    match a {
        NominalKind::Struct => matches!(b, NominalKind::Struct),
        NominalKind::Enum => matches!(b, NominalKind::Enum),
        NominalKind::Class => matches!(b, NominalKind::Class),
        NominalKind::Protocol => matches!(b, NominalKind::Protocol),
    }
}

/// Whether two types or protocols are of one kind.
pub(crate) fn is_same_type_kind(a: &RDeclKind, b: &RDeclKind) -> bool
    ensures { result ≡ found.is_same_type_kind a.now b.now }
{
    match a {
        RDeclKind::Nominal(x, _, _) => match b {
            RDeclKind::Nominal(y, _, _) => is_same_kind(*x, *y),
            _ => false,
        },
        _ => false,
    }
}

/// Whether the old interface declares a type or protocol that the new one has not, or as another kind.
#[tactic(auto, unfolding(crate::specs::Found::is_gone))]
pub(crate) fn is_gone(old: &RModule, new: &RModule, key: &Key) -> bool
    requires old_keys { HasOneForEachKey old.now }
    requires new_keys { HasOneForEachKey new.now }
    ensures { result ≡ found.is_gone old.now new.now key.now }
{
    match type_in(old, key) {
        None => false,
        Some(before) => match type_in(new, key) {
            None => true,
            Some(after) => !is_same_type_kind(&before.kind, &after.kind),
        },
    }
}

/// Whether a declaration is a member of such a type or protocol.
pub(crate) fn is_with_gone(old: &RModule, new: &RModule, decl: &RDecl) -> bool
    requires old_keys { HasOneForEachKey old.now }
    requires new_keys { HasOneForEachKey new.now }
    ensures { result ≡ found.is_with_gone old.now new.now (found.owner_of decl.now) }
{
    match owner_of(decl) {
        Some(key) => is_gone(old, new, key),
        None => false,
    }
}
