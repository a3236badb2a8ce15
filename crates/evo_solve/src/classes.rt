//! The classes of equal nodes.

ghost use Rattle.std.specs.Prelude.{◌≡◌, ℕ, ◌<◌, ◌↔◌, IfOk, IsTrue, MatchOption, get_or, length, map, slice_get};
ghost use Rattle.evo_solve.specs.Equal as equal;
ghost use Rattle.evo_solve.specs.Universe.{Closed, Gap, Grown, HasPath, IsSolved, Linked, Placing, Represented, redirect};
ghost use Rattle.evo_solve.specs.declared.universe.Sides as sides_type;

use crate::universe::{Node, Origin, Sides, add_sides, add_type};
use evo_resolved::{RRequirement, RType, same_name, same_type};
use std::alloc::{AllocError, Global};

/// A node with another one, which are to be in one class.
#[derive(Clone, Copy)]
pub struct Couple {
    pub one: usize,
    pub other: usize,
}

/// The nodes of requirements, and for each the one that stands for its class.
#[derive(Drop)]
pub struct Classes {
    pub nodes: Vec<Node>,
    pub reps: Vec<usize>,
}

fn are_linked(reps: &[usize], x: &Node, y: &Node) -> bool
    ensures { IsTrue result ↔ Linked reps.now x.now y.now }
{
    match &x.origin {
        Origin::Root => match &y.origin {
            Origin::Root => same_type(&x.path.first, &y.path.first),
            Origin::Taken(_, _) => false,
        },
        Origin::Taken(p, n) => match &y.origin {
            Origin::Root => false,
            Origin::Taken(q, m) => {
                *p < reps.len() && *q < reps.len() && reps[*p] == reps[*q] && same_name(n, m)
            }
        },
    }
}

// A couple that is to be in one class and is not.
fn gap(nodes: &[Node], pairs: &[Sides], reps: &[usize]) -> Option<Couple>
    requires size { length reps.now ≡ length nodes.now }
    requires sides { (k : ℕ) (p : Sides) → slice_get pairs.now k ≡ Some p → (p.left < length nodes.now) × (p.right < length nodes.now) }
    ensures { MatchOption result (Closed nodes.now pairs.now reps.now) (λ g. Gap nodes.now pairs.now reps.now g) }
{
    for side in pairs {
        if reps[side.left] != reps[side.right] {
            return Some(Couple {
                one: side.left,
                other: side.right,
            });
        }
    }
    for (i, x) in nodes.iter().enumerate() {
        for (j, y) in nodes.iter().enumerate() {
            if reps[i] != reps[j] && are_linked(reps, x, y) {
                return Some(Couple { one: i, other: j });
            }
        }
    }
    None
}

// Puts one class into another.
fn merge(reps: &mut [usize], from: usize, to: usize)
    ensures { reps.new ≡ map (redirect from to) reps.old }
{
    for r in reps.iter_mut() {
        if *r == from {
            *r = to;
        }
    }
}

// Joins classes until the requirements and the taking of names keep them.
fn close(written: &[RRequirement], nodes: &[Node], pairs: &[Sides], reps: &mut [usize])
    requires size { length reps.old ≡ length nodes.now }
    requires placing { Placing written.now nodes.now pairs.now (length written.now) }
    requires sound { Represented written.now nodes.now reps.old }
    ensures size { length reps.new ≡ length nodes.now }
    ensures closed { Closed nodes.now pairs.now reps.new }
    ensures sound { Represented written.now nodes.now reps.new }
{
    while let Some(g) = gap(nodes, pairs, reps) {
        let a = reps[g.one];
        let b = reps[g.other];
        if a < b {
            merge(reps, b, a);
        } else {
            merge(reps, a, b);
        }
    }
}

// Each node in a class of its own.
fn apart(alloc: Global, count: usize) -> Result<Vec<usize>, AllocError>
    ensures size { IfOk result (λ reps. length reps.items ≡ count) }
    ensures own { IfOk result (λ reps. (i : ℕ) → i < count → get_or reps.items i 0 ≡ i) }
{
    let mut reps = Vec::new(alloc);
    for i in 0..count {
        reps.push(i)?;
    }
    Ok(reps)
}

/// The classes of these requirements, in which the type is a node. Its number is the second answer.
pub fn solve(
    alloc: Global,
    written: &[RRequirement],
    ty: &RType,
) -> Result<(Classes, usize), AllocError>
    ensures { IfOk result (λ r. IsSolved written.now r.0.nodes.items r.0.reps.items × HasPath r.0.nodes.items r.1 (equal.path_of ty.now)) }
{
    let mut nodes = Vec::new(alloc);
    let mut pairs = Vec::new(alloc);
    add_sides(alloc, written, &mut nodes, &mut pairs)?;
    let number = add_type(alloc, &mut nodes, ty)?;
    let mut reps = apart(alloc, nodes.len())?;
    close(written, &nodes, &pairs, &mut reps);
    Ok((Classes { nodes, reps }, number))
}
