//! The first path of each class, by rounds of offers.

ghost use Rattle.std.specs.Prelude.{◌≡◌, ◌<◌, ◌↔◌, IfOk, OnOk, IsTrue, MatchOption, ℕ, None, Some, length, slice_set};
ghost use Rattle.evo_resolved.specs.declared.resolved_type.RType as types;
ghost use Rattle.evo_solve.specs.Canonical.{IsNamed};
ghost use Rattle.evo_solve.specs.Universe.{InRange, Least, Offered, Relaxed, RootAt, Sound, best_of, improves, lesser, offer, root_offer, type_of};
ghost use Rattle.evo_solve.specs.declared.universe.Origin.TheVariants as origin;

use crate::order::comes_before;
use crate::path::Path;
use crate::universe::{Node, Origin, with_name};
use evo_resolved::{Copied, RType};
use std::alloc::{AllocError, Global};

fn offer_of_root(alloc: Global, path: &Path) -> Result<Option<Path>, AllocError>
    ensures { IfOk result (λ o. o ≡ root_offer path.now path.now.first) }
{
    match &path.first {
        RType::Param(number) => {
            let names = path.names.copy(alloc)?;
            let first = RType::Param(*number);
            Ok(Some(Path { first, names }))
        }
        _ => Ok(None),
    }
}

// What a node offers to its class.
fn offer_of(
    alloc: Global,
    x: &Node,
    reps: &[usize],
    bests: &[Option<Path>],
) -> Result<Option<Path>, AllocError>
    requires { Offered reps.now bests.now x.now x.now.origin }
    ensures { IfOk result (λ o. o ≡ offer reps.now bests.now x.now) }
{
    match &x.origin {
        Origin::Root => offer_of_root(alloc, &x.path),
        Origin::Taken(below, name) => match &bests[reps[*below]] {
            Some(best) => Ok(Some(with_name(alloc, best, name)?)),
            None => Ok(None),
        },
    }
}

fn is_better(offered: &Path, best: &Option<Path>) -> bool
    ensures { result ≡ improves best.now offered.now }
{
    match best {
        Some(best) => comes_before(offered, best),
        None => true,
    }
}

// Keeps the lesser of two paths.
fn keep(bests: &mut Vec<Option<Path>>, class: usize, offered: Path)
    requires { class < length bests.old.items }
    ensures { bests.new.items ≡ slice_set bests.old.items class (Some (lesser (best_of bests.old.items class) offered)) }
{
    if is_better(&offered, &bests[class]) {
        bests[class] = Some(offered);
    }
}

// Each node offers a path to its class.
fn round(
    alloc: Global,
    nodes: &[Node],
    reps: &[usize],
    bests: &mut Vec<Option<Path>>,
) -> Result<(), AllocError>
    requires range { InRange nodes.now reps.now }
    requires size { length bests.old.items ≡ length nodes.now }
    ensures { OnOk result (Relaxed nodes.now reps.now bests.old.items bests.new.items (length nodes.now)) }
{
    for (i, x) in nodes.iter().enumerate() {
        let Some(path) = offer_of(alloc, x, reps, bests)? else {
            continue;
        };
        keep(bests, reps[i], path);
    }
    Ok(())
}

fn none(alloc: Global, count: usize) -> Result<Vec<Option<Path>>, AllocError>
    ensures size { IfOk result (λ bests. length bests.items ≡ count) }
    ensures none { IfOk result (λ bests. (c : ℕ) → best_of bests.items c ≡ None) }
{
    let mut bests = Vec::new(alloc);
    for _ in 0..count {
        bests.push(None)?;
    }
    Ok(bests)
}

/// The first path over parameters of each class, so far as that has fewer names than there are rounds.
pub fn first_paths(
    alloc: Global,
    nodes: &[Node],
    reps: &[usize],
    rounds: usize,
) -> Result<Vec<Option<Path>>, AllocError>
    requires { InRange nodes.now reps.now }
    ensures size { IfOk result (λ bests. length bests.items ≡ length nodes.now) }
    ensures least { IfOk result (λ bests. Least nodes.now reps.now rounds bests.items) }
    ensures sound { IfOk result (λ bests. Sound nodes.now reps.now bests.items) }
{
    let mut bests = none(alloc, nodes.len())?;
    for _ in 0..rounds {
        round(alloc, nodes, reps, &mut bests)?;
    }
    Ok(bests)
}

/// Whether a node is a named type.
pub fn is_named_root(x: &Node) -> bool
    ensures { IsTrue result ↔ ((x.now.origin ≡ origin.Root) × IsNamed x.now.path.first) }
{
    match &x.origin {
        Origin::Root => match &x.path.first {
            RType::Named(_) => true,
            RType::NoValue => true,
            RType::Param(_) => false,
            RType::Assoc(_, _) => false,
        },
        Origin::Taken(_, _) => false,
    }
}

/// The named type of a class.
pub fn named_in<'a>(nodes: &'a [Node], reps: &[usize], class: usize) -> Option<&'a RType>
    requires { length reps.now ≡ length nodes.now }
    ensures { MatchOption result ((t : types.RType) → IsNamed t → RootAt nodes.now reps.now t class → ⊥) (λ t. IsNamed t.now × RootAt nodes.now reps.now t.now class) }
{
    for (i, x) in nodes.iter().enumerate() {
        if reps[i] == class && is_named_root(x) {
            return Some(&x.path.first);
        }
    }
    None
}

/// A path over a parameter as a type.
pub fn as_type(alloc: Global, path: &Path) -> Result<RType, AllocError>
    ensures { IfOk result (λ t. t ≡ type_of path.now) }
{
    match &path.first {
        RType::Param(number) => {
            if path.names.as_slice().is_empty() {
                return Ok(RType::Param(*number));
            }
            let names = path.names.copy(alloc)?;
            Ok(RType::Assoc(*number, names))
        }
        first => first.copy(alloc),
    }
}
