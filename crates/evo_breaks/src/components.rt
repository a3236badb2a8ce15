//! The stored properties and the cases of a type, which clients lay out where it is frozen.

ghost use Rattle.std.specs.Prelude.{◌≡◌, ◌<◌, ◌∷◌, [], filter, length, MatchOption, ⊤};
ghost use Rattle.evo_breaks.specs.Conditions as conditions;
ghost use Rattle.evo_breaks.specs.Same as same;
ghost use Rattle.evo_breaks.specs.Found as found;

use crate::conditions::are_same_payloads;
use crate::found::owner_of;
use crate::same::{is_same_key, is_same_written};
use evo_base::Key;
use evo_resolved::{Kept, RDecl, RDeclKind, RModule};

fn is_component(kind: &RDeclKind) -> bool
    ensures { result ≡ conditions.is_component kind.now }
{
    matches!(
        kind,
        RDeclKind::Property(_, _, Kept::Stored) | RDeclKind::Case(_)
    )
}

/// Whether a declaration is a member of the type or protocol of this key.
pub(crate) fn is_owned_by(key: &Key, decl: &RDecl) -> bool
    ensures { result ≡ conditions.is_owned_by key.now (found.owner_of decl.now) }
{
    match owner_of(decl) {
        Some(owner) => is_same_key(owner, key),
        None => false,
    }
}

fn is_component_of(key: &Key, decl: &RDecl) -> bool
    ensures { result ≡ conditions.is_component_of key.now decl.now }
{
    is_component(&decl.kind) && is_owned_by(key, decl)
}

fn is_same_content(a: &RDeclKind, b: &RDeclKind) -> bool
    ensures { result ≡ conditions.same_content a.now b.now }
{
    match a {
        RDeclKind::Property(_, t, _) => match b {
            RDeclKind::Property(_, u, _) => is_same_written(t, u),
            _ => false,
        },
        RDeclKind::Case(x) => match b {
            RDeclKind::Case(y) => are_same_payloads(x.as_slice(), y.as_slice()),
            _ => false,
        },
        _ => false,
    }
}

fn is_same_component(a: &RDecl, b: &RDecl) -> bool
    ensures { result ≡ conditions.same_component a.now b.now }
{
    a.key.base.as_slice() == b.key.base.as_slice() && is_same_content(&a.kind, &b.kind)
}

// The first component of the type, and what stands behind it.
fn next<'a>(decls: &'a [RDecl], key: &Key) -> Option<(&'a RDecl, &'a [RDecl])>
    ensures found { MatchOption result (filter (conditions.is_component_of key.now) decls.now ≡ []) (λ p. filter (conditions.is_component_of key.now) decls.now ≡ p.0.now ∷ filter (conditions.is_component_of key.now) p.1.now) }
    ensures shorter { MatchOption result ⊤ (λ p. length p.1.now < length decls.now) }
{
    let mut rest = decls;
    'seek: while let [first, others @ ..] = rest {
        if is_component_of(key, first) {
            return Some((first, others));
        }
        rest = others;
    }
    None
}

// Whether the components among the first declarations are those among the second.
fn are_same_among(a: &[RDecl], b: &[RDecl], key: &Key) -> bool
    ensures { result ≡ same.same_list conditions.same_component (filter (conditions.is_component_of key.now) a.now) (filter (conditions.is_component_of key.now) b.now) }
{
    match next(a, key) {
        None => next(b, key).is_none(),
        Some((first, rest)) => match next(b, key) {
            None => false,
            Some((other, others)) => {
                is_same_component(first, other) && are_same_among(rest, others, key)
            }
        },
    }
}

/// Whether a type has the same components in both interfaces.
#[tactic(auto, unfolding(crate::specs::Conditions::same_components, crate::specs::Conditions::components))]
pub(crate) fn are_same_components(old: &RModule, new: &RModule, key: &Key) -> bool
    ensures { result ≡ conditions.same_components old.now new.now key.now }
{
    are_same_among(old.decls.as_slice(), new.decls.as_slice(), key)
}
