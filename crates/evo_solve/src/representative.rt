//! The type that stands for its equals.

ghost use Rattle.std.specs.Prelude.{◌≡◌, ◌<◌, ◌^◌, IfOk, None, Some, length};
ghost use Rattle.evo_solve.specs.Answers.{Canonical};
ghost use Rattle.evo_solve.specs.Canonical.{IsCanonical, IsConsistent};
ghost use Rattle.evo_solve.specs.Equal as equal;
ghost use Rattle.evo_solve.specs.Universe.{HasPath, IsSolved, best_of, type_of};
ghost use Rattle.evo_solve.specs.declared.path.Path as paths;

use crate::best::{as_type, first_paths, named_in};
use crate::classes::{Classes, solve};
use crate::path::{Path, SolveFault};
use evo_resolved::{Copied, RRequirement, RType, Signature};
use std::alloc::{AllocError, Global};

/// How many names stand behind a parameter.
pub fn name_count(ty: &RType) -> usize
    ensures count { result ≡ length (equal.path_of ty.now).names }
    ensures small { result < 2 ^ 63 }
{
    match ty {
        RType::Assoc(_, names) => names.as_slice().len(),
        RType::Param(_) => 0,
        RType::Named(_) => 0,
        RType::NoValue => 0,
    }
}

fn type_at(alloc: Global, bests: &[Option<Path>], class: usize) -> Result<RType, AllocError>
    requires inside { class < length bests.now }
    requires there { best_of bests.now class ≡ None → ⊥ }
    ensures { IfOk result (λ t. (p : paths.Path) × (best_of bests.now class ≡ Some p) × (t ≡ type_of p)) }
{
    match &bests[class] {
        Some(path) => as_type(alloc, path),
        None => unreachable!(),
    }
}

// What stands for the class of a node, whose path is the type.
fn stand_in(
    alloc: Global,
    _written: &[RRequirement],
    classes: &Classes,
    ty: &RType,
    number: usize,
) -> Result<RType, AllocError>
    requires consistent { IsConsistent _written.now }
    requires solved { IsSolved _written.now classes.now.nodes.items classes.now.reps.items }
    requires has { HasPath classes.now.nodes.items number (equal.path_of ty.now) }
    ensures { IfOk result (λ t. IsCanonical _written.now ty.now t) }
{
    let nodes = classes.nodes.as_slice();
    let reps = classes.reps.as_slice();
    let class = reps[number];
    if let Some(named) = named_in(nodes, reps, class) {
        return named.copy(alloc);
    }
    let bests = first_paths(alloc, nodes, reps, name_count(ty) + 1)?;
    type_at(alloc, &bests, class)
}

fn canonical_of(alloc: Global, written: &[RRequirement], ty: &RType) -> Result<RType, AllocError>
    requires { IsConsistent written.now }
    ensures { IfOk result (λ t. IsCanonical written.now ty.now t) }
{
    let (classes, number) = solve(alloc, written, ty)?;
    stand_in(alloc, written, &classes, ty, number)
}

/// The canonical type: the named type to which the requirements make it equal, if there is one, else the shortest path,
/// and of these the first by parameter and then by names in the order of their bytes.
pub fn canonical(alloc: Global, signature: &Signature, ty: &RType) -> Result<RType, SolveFault>
    requires { IsConsistent signature.now.requirements }
    ensures { Canonical signature.now.requirements ty.now result }
{
    if name_count(ty) > 4 {
        return Err(SolveFault::Long);
    }
    match canonical_of(alloc, signature.requirements.as_slice(), ty) {
        Ok(result) => Ok(result),
        Err(_) => Err(SolveFault::Memory),
    }
}
