//! Whether types, requirements and lists of them are the same.

ghost use Rattle.std.specs.Prelude.{◌≡◌};
ghost use Rattle.std.specs.List.{list_any};
ghost use Rattle.evo_meaning.specs.Keys as keys;
ghost use Rattle.evo_names.specs.Meets as meets;
ghost use Rattle.evo_breaks.specs.Same as same;

use evo_base::{Key, List, Name};
use evo_resolved::{RReference, RRequirement, RType, RTypeName};

/// Whether two keys are equal.
pub(crate) fn is_same_key(a: &Key, b: &Key) -> bool
    ensures { result ≡ keys.same_key a.now b.now }
{
    evo_resolved::same_key(a, b)
}

fn are_same_names(a: &List<Name>, b: &List<Name>) -> bool
    ensures { result ≡ meets.same_names a.now b.now }
{
    evo_resolved::same_names(a, b)
}

/// Whether two types are equal.
pub(crate) fn is_same_type(a: &RType, b: &RType) -> bool
    ensures { result ≡ same.same_type a.now b.now }
{
    match a {
        RType::Named(x) => match b {
            RType::Named(y) => is_same_key(x, y),
            _ => false,
        },
        RType::Param(i) => match b {
            RType::Param(j) => *i == *j,
            _ => false,
        },
        RType::Assoc(i, xs) => match b {
            RType::Assoc(j, ys) => *i == *j && are_same_names(xs, ys),
            _ => false,
        },
        RType::NoValue => matches!(b, RType::NoValue),
    }
}

/// Whether the same type is written.
pub(crate) fn is_same_written(a: &RTypeName, b: &RTypeName) -> bool
    ensures { result ≡ same.same_written a.now b.now }
{
    is_same_type(&a.ty, &b.ty)
}

fn is_same_reference(a: &RReference, b: &RReference) -> bool
    ensures { result ≡ same.same_reference a.now b.now }
{
    is_same_key(&a.key, &b.key)
}

fn is_same_requirement(a: &RRequirement, b: &RRequirement) -> bool
    ensures { result ≡ same.same_requirement a.now b.now }
{
    match a {
        RRequirement::Conforms(x, p) => match b {
            RRequirement::Conforms(y, q) => is_same_written(x, y) && is_same_reference(p, q),
            _ => false,
        },
        RRequirement::Same(x, _, y) => match b {
            RRequirement::Same(z, _, w) => is_same_written(x, z) && is_same_written(y, w),
            _ => false,
        },
    }
}

fn is_required(x: &RRequirement, among: &[RRequirement]) -> bool
    ensures { result ≡ list_any (λ y. same.same_requirement x.now y) among.now }
{
    among.iter().any(|y| is_same_requirement(x, y))
}

fn are_within(a: &[RRequirement], b: &[RRequirement]) -> bool
    ensures { result ≡ same.is_within same.same_requirement a.now b.now }
{
    a.iter().all(|x| is_required(x, b))
}

/// Whether two sets of requirements are equal.
pub(crate) fn are_same_requirements(a: &[RRequirement], b: &[RRequirement]) -> bool
    ensures { result ≡ same.same_set same.same_requirement a.now b.now }
{
    are_within(a, b) && are_within(b, a)
}

fn is_named(x: &RReference, among: &[RReference]) -> bool
    ensures { result ≡ list_any (λ y. same.same_reference x.now y) among.now }
{
    among.iter().any(|y| is_same_reference(x, y))
}

fn are_named(a: &[RReference], b: &[RReference]) -> bool
    ensures { result ≡ same.is_within same.same_reference a.now b.now }
{
    a.iter().all(|x| is_named(x, b))
}

/// Whether the same protocols are named.
pub(crate) fn are_same_references(a: &[RReference], b: &[RReference]) -> bool
    ensures { result ≡ same.same_set same.same_reference a.now b.now }
{
    are_named(a, b) && are_named(b, a)
}

/// Whether the same result is written, or none in both.
pub(crate) fn is_same_result(a: &Option<RTypeName>, b: &Option<RTypeName>) -> bool
    ensures { result ≡ same.same_result a.now b.now }
{
    match a {
        Some(x) => match b {
            Some(y) => is_same_written(x, y),
            None => false,
        },
        None => b.is_none(),
    }
}

/// Whether the same label is written, or none in both.
pub(crate) fn is_same_label(a: &Option<Name>, b: &Option<Name>) -> bool
    ensures { result ≡ same.same_label a.now b.now }
{
    match a {
        Some(x) => match b {
            Some(y) => x.as_slice() == y.as_slice(),
            None => false,
        },
        None => b.is_none(),
    }
}
