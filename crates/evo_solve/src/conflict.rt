//! Requirements that make two different named types equal.

ghost use Rattle.std.specs.Prelude.{◌≡◌, ◌↔◌, IfOk, IsTrue, MatchOption, length};
ghost use Rattle.evo_solve.specs.Canonical.{IsConsistent, IsFirstConflict};
ghost use Rattle.evo_solve.specs.Universe.{Agree, Alike};

use crate::best::is_named_root;
use crate::classes::solve;
use crate::universe::Node;
use evo_resolved::{RRequirement, RType, Signature, same_type};
use std::alloc::{AllocError, Global};

fn are_alike(x: &Node, y: &Node) -> bool
    ensures { IsTrue result ↔ Alike x.now y.now }
{
    !is_named_root(x) || !is_named_root(y) || same_type(&x.path.first, &y.path.first)
}

// Whether each class has one named type at most.
fn named_agree(nodes: &[Node], reps: &[usize]) -> bool
    requires { length reps.now ≡ length nodes.now }
    ensures { IsTrue result ↔ Agree nodes.now reps.now }
{
    for (i, x) in nodes.iter().enumerate() {
        for (j, y) in nodes.iter().enumerate() {
            if reps[i] == reps[j] && !are_alike(x, y) {
                return false;
            }
        }
    }
    true
}

fn is_consistent(alloc: Global, written: &[RRequirement]) -> Result<bool, AllocError>
    ensures { IfOk result (λ b. IsTrue b ↔ IsConsistent written.now) }
{
    let (classes, _) = solve(alloc, written, &RType::NoValue)?;
    Ok(named_agree(&classes.nodes, &classes.reps))
}

/// The number of the first requirement with which two different named types are equal; nothing where no requirement
/// makes them so.
pub fn first_conflict(alloc: Global, signature: &Signature) -> Result<Option<usize>, AllocError>
    ensures { IfOk result (λ o. MatchOption o (IsConsistent signature.now.requirements) (λ i. IsFirstConflict signature.now.requirements i)) }
{
    let written = signature.requirements.as_slice();
    if is_consistent(alloc, written)? {
        return Ok(None);
    }
    for i in 0..written.len() {
        if !is_consistent(alloc, &written[..i + 1])? {
            return Ok(Some(i));
        }
    }
    Ok(None)
}
