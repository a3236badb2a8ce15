//! The classes above a class.

ghost use Rattle.std.specs.Prelude.{◌≡◌, MatchOption, Some, None};
ghost use Rattle.std.specs.Option.{option_and_then};
ghost use Rattle.evo_breaks.specs.Conditions as conditions;
ghost use Rattle.evo_breaks.specs.Found.{HasOneForEachKey};

use crate::found::type_in;
use crate::same::is_same_key;
use evo_base::Key;
use evo_resolved::{RDecl, RDeclKind, RModule};

fn superclass_of(kind: &RDeclKind) -> Option<&Key>
    ensures { MatchOption result (conditions.superclass_by kind.now ≡ None) (λ k. conditions.superclass_by kind.now ≡ Some k.now) }
{
    match kind {
        RDeclKind::Nominal(_, Some(superclass), _) => Some(&superclass.key),
        _ => None,
    }
}

fn superclass_in<'a>(interface: &'a RModule, key: &Key) -> Option<&'a Key>
    requires { HasOneForEachKey interface.now }
    ensures { MatchOption result (conditions.superclass_in interface.now key.now ≡ None) (λ k. conditions.superclass_in interface.now key.now ≡ Some k.now) }
{
    match type_in(interface, key) {
        Some(class) => superclass_of(&class.kind),
        None => None,
    }
}

// Whether a class is this one or stands above it, so many steps up at most.
#[tactic(auto, unfolding(crate::specs::Conditions::is_above), using(crate::proofs::Above::ended))]
fn is_above(steps: usize, interface: &RModule, below: &Key, above: &Key) -> bool
    requires { HasOneForEachKey interface.now }
    ensures { result ≡ conditions.is_above steps interface.now (Some below.now) above.now }
{
    if steps == 0 {
        return false;
    }
    if is_same_key(below, above) {
        return true;
    }
    match superclass_in(interface, below) {
        Some(next) => is_above(steps - 1, interface, next, above),
        None => false,
    }
}

#[tactic(auto, unfolding(crate::specs::Conditions::is_ancestor, crate::specs::Conditions::is_above))]
fn is_ancestor(interface: &RModule, above: &Key, key: &Key) -> bool
    requires { HasOneForEachKey interface.now }
    ensures { result ≡ conditions.is_ancestor interface.now above.now key.now }
{
    let steps = interface.decls.as_slice().len() + 1;
    match superclass_in(interface, key) {
        Some(next) => is_above(steps, interface, next, above),
        None => false,
    }
}

/// Whether the superclass of an old class no longer stands above it.
pub(crate) fn is_superclass_lost(new: &RModule, decl: &RDecl) -> bool
    requires new_keys { HasOneForEachKey new.now }
    ensures { result ≡ conditions.is_superclass_lost new.now decl.now }
{
    match superclass_of(&decl.kind) {
        Some(superclass) => !is_ancestor(new, superclass, &decl.own),
        None => false,
    }
}
