//! Where paths of conformances lead among classes and protocols.

ghost use Rattle.std.specs.Prelude.{◌≡◌, ℕ, ◌<◌, ◌↔◌, List, Some, IsTrue, MatchOption, length};
ghost use Rattle.evo_solve.specs.Equal as equal;
ghost use Rattle.evo_solve.specs.Search.{MovesBy, subtables_of};
ghost use Rattle.evo_solve.specs.Universe.{Child, Has, InRange, TakenFrom, RootAt};
ghost use Rattle.evo_solve.specs.Ways.{IsNumber};

use crate::classes::Classes;
use crate::declarations::{Protocol, Subtable};
use crate::universe::{Node, Origin};
use evo_base::{Key, Name};
use evo_resolved::{RType, same_key, same_name, same_type};

fn is_taken(x: &Node, reps: &[usize], class: usize, name: &Name) -> bool
    ensures { IsTrue result ↔ TakenFrom reps.now class name.now x.now.origin }
{
    match &x.origin {
        Origin::Root => false,
        Origin::Taken(below, own) => {
            *below < reps.len() && reps[*below] == class && same_name(own, name)
        }
    }
}

// The class to which a name leads from another.
fn child(classes: &Classes, class: usize, name: &Name) -> Option<usize>
    requires { InRange classes.now.nodes.items classes.now.reps.items }
    ensures { MatchOption result ((d : ℕ) → Child classes.now.nodes.items classes.now.reps.items class name.now d → ⊥) (λ d. Child classes.now.nodes.items classes.now.reps.items class name.now d) }
{
    let nodes = classes.nodes.as_slice();
    let reps = classes.reps.as_slice();
    for (i, x) in nodes.iter().enumerate() {
        if is_taken(x, reps, class, name) {
            return Some(reps[i]);
        }
    }
    None
}

/// The class to which a subtable leads from another: that of the associated type, or the same.
pub fn moved(classes: &Classes, class: usize, associated: &Option<Name>) -> Option<usize>
    requires { InRange classes.now.nodes.items classes.now.reps.items }
    ensures { MatchOption result ((d : ℕ) → MovesBy classes.now.nodes.items classes.now.reps.items class d associated.now → ⊥) (λ d. MovesBy classes.now.nodes.items classes.now.reps.items class d associated.now) }
{
    match associated {
        Some(name) => child(classes, class, name),
        None => Some(class),
    }
}

fn root(classes: &Classes, ty: &RType) -> Option<usize>
    requires { InRange classes.now.nodes.items classes.now.reps.items }
    ensures { MatchOption result ((d : ℕ) → RootAt classes.now.nodes.items classes.now.reps.items ty.now d → ⊥) (λ d. RootAt classes.now.nodes.items classes.now.reps.items ty.now d) }
{
    let nodes = classes.nodes.as_slice();
    let reps = classes.reps.as_slice();
    for (i, x) in nodes.iter().enumerate() {
        if matches!(x.origin, Origin::Root) && same_type(&x.path.first, ty) {
            return Some(reps[i]);
        }
    }
    None
}

fn class_at(classes: &Classes, first: &RType, names: &[Name]) -> Option<usize>
    requires { InRange classes.now.nodes.items classes.now.reps.items }
    ensures { MatchOption result ((c : ℕ) → Has classes.now.nodes.items classes.now.reps.items (equal.behind (equal.alone first.now) names.now) c → ⊥) (λ c. Has classes.now.nodes.items classes.now.reps.items (equal.behind (equal.alone first.now) names.now) c) }
{
    let Some(mut class) = root(classes, first) else {
        return None;
    };
    for name in names {
        let Some(next) = child(classes, class, name) else {
            return None;
        };
        class = next;
    }
    Some(class)
}

/// The class of a type.
pub fn class_of(classes: &Classes, ty: &RType) -> Option<usize>
    requires { InRange classes.now.nodes.items classes.now.reps.items }
    ensures { MatchOption result ((c : ℕ) → Has classes.now.nodes.items classes.now.reps.items (equal.path_of ty.now) c → ⊥) (λ c. Has classes.now.nodes.items classes.now.reps.items (equal.path_of ty.now) c) }
{
    match ty {
        RType::Assoc(number, names) => {
            class_at(classes, &RType::Param(*number), names.as_slice())
        }
        RType::Param(_) => root(classes, ty),
        RType::Named(_) => root(classes, ty),
        RType::NoValue => root(classes, ty),
    }
}

/// The number of a protocol.
pub fn number_of(protocols: &[Protocol], key: &Key) -> Option<usize>
    ensures { MatchOption result ((n : ℕ) → IsNumber protocols.now key.now n → ⊥) (λ n. IsNumber protocols.now key.now n) }
{
    for (i, protocol) in protocols.iter().enumerate() {
        if same_key(&protocol.key, key) {
            return Some(i);
        }
    }
    None
}

/// The subtables of a protocol, by its number.
pub fn subtables(protocols: &[Protocol], number: usize) -> &[Subtable]
    ensures { result.now ≡ subtables_of protocols.now number }
{
    match protocols.get(number) {
        Some(protocol) => protocol.subtables.as_slice(),
        None => &[],
    }
}
