//! The paths that requirements and a type name, each with all that it begins with.

ghost use Rattle.std.specs.Bool.{OnTrue};
ghost use Rattle.std.specs.Option.{IfSome};
ghost use Rattle.std.specs.Prelude.{◌≡◌, ◌<◌, [], IfOk, OnOk, Some, length, slice_get};
ghost use Rattle.evo_solve.specs.Equal as equal;
ghost use Rattle.evo_solve.specs.Universe.{Added, AddedBehind, Grown, HasPath, Placing};
ghost use Rattle.evo_solve.specs.declared.universe.Node as nodes_type;
ghost use Rattle.evo_solve.specs.declared.universe.Origin.TheVariants as origin;

use crate::path::Path;
use evo_base::{List, Name};
use evo_resolved::{Copied, RRequirement, RType, same_name, same_type};
use std::alloc::{AllocError, Global};

/// How a node was made.
#[derive(Drop)]
pub enum Origin {
    /// It is a type alone.
    Root,
    /// It is an earlier node, by its number, with a name behind it.
    Taken(usize, Name),
}

/// A path that a requirement begins with.
#[derive(Drop)]
pub struct Node {
    pub path: Path,
    pub origin: Origin,
}

/// The nodes that are the sides of an `==`.
#[derive(Clone, Copy)]
pub struct Sides {
    pub left: usize,
    pub right: usize,
}

/// The path with a name behind it.
pub fn with_name(alloc: Global, path: &Path, name: &Name) -> Result<Path, AllocError>
    ensures { IfOk result (λ p. p ≡ equal.taken path.now name.now) }
{
    let first = path.first.copy(alloc)?;
    let mut names = path.names.copy(alloc)?.into_vec();
    names.push(name.copy(alloc)?)?;
    Ok(Path {
        first,
        names: List::from_vec(names),
    })
}

fn is_root(x: &Node, first: &RType) -> bool
    ensures { OnTrue result ((x.now.origin ≡ origin.Root) × (x.now.path.first ≡ first.now)) }
{
    matches!(x.origin, Origin::Root) && same_type(&x.path.first, first)
}

// A node that is this type alone.
fn find_root(nodes: &[Node], first: &RType) -> Option<usize>
    requires { Grown nodes.now }
    ensures { IfSome result (λ i. HasPath nodes.now i (equal.alone first.now)) }
{
    for (i, x) in nodes.iter().enumerate() {
        if is_root(x, first) {
            return Some(i);
        }
    }
    None
}

fn is_behind(x: &Node, below: usize, name: &Name) -> bool
    ensures { OnTrue result (x.now.origin ≡ origin.Taken below name.now) }
{
    match &x.origin {
        Origin::Root => false,
        Origin::Taken(own, last) => *own == below && same_name(last, name),
    }
}

// A node that is this name behind another node.
fn find_behind(nodes: &[Node], below: usize, name: &Name) -> Option<usize>
    requires { Grown nodes.now }
    ensures { IfSome result (λ i. (y : nodes_type.Node) → slice_get nodes.now below ≡ Some y → HasPath nodes.now i (equal.taken y.path name.now)) }
{
    for (i, x) in nodes.iter().enumerate() {
        if is_behind(x, below, name) {
            return Some(i);
        }
    }
    None
}

fn add_root(alloc: Global, nodes: &mut Vec<Node>, first: RType) -> Result<usize, AllocError>
    requires { Grown nodes.old.items }
    ensures { IfOk result (λ n. Added nodes.old.items nodes.new.items n (equal.alone first)) }
{
    if let Some(found) = find_root(nodes, &first) {
        return Ok(found);
    }
    let number = nodes.len();
    nodes.push(Node {
        path: Path {
            first,
            names: List::from_vec(Vec::new(alloc)),
        },
        origin: Origin::Root,
    })?;
    Ok(number)
}

fn add_name(
    alloc: Global,
    nodes: &mut Vec<Node>,
    below: usize,
    name: &Name,
) -> Result<usize, AllocError>
    requires grown { Grown nodes.old.items }
    requires below { below < length nodes.old.items }
    ensures { IfOk result (λ n. AddedBehind nodes.old.items nodes.new.items n below name.now) }
{
    if let Some(found) = find_behind(nodes, below, name) {
        return Ok(found);
    }
    let path = with_name(alloc, &nodes[below].path, name)?;
    let name = name.copy(alloc)?;
    let number = nodes.len();
    nodes.push(Node {
        path,
        origin: Origin::Taken(below, name),
    })?;
    Ok(number)
}

fn add_path(
    alloc: Global,
    nodes: &mut Vec<Node>,
    first: RType,
    names: &[Name],
) -> Result<usize, AllocError>
    requires { Grown nodes.old.items }
    ensures { IfOk result (λ n. Added nodes.old.items nodes.new.items n (equal.behind (equal.alone first) names.now)) }
{
    let mut at = add_root(alloc, nodes, first)?;
    for name in names {
        at = add_name(alloc, nodes, at, name)?;
    }
    Ok(at)
}

/// Puts a type behind the nodes with all that it begins with, and answers the number of the type itself.
pub fn add_type(alloc: Global, nodes: &mut Vec<Node>, ty: &RType) -> Result<usize, AllocError>
    requires { Grown nodes.old.items }
    ensures { IfOk result (λ n. Added nodes.old.items nodes.new.items n (equal.path_of ty.now)) }
{
    match ty {
        RType::Assoc(number, names) => {
            add_path(alloc, nodes, RType::Param(*number), names.as_slice())
        }
        _ => {
            let first = ty.copy(alloc)?;
            add_root(alloc, nodes, first)
        }
    }
}

/// Puts the sides of each `==` behind the nodes.
pub fn add_sides(
    alloc: Global,
    written: &[RRequirement],
    nodes: &mut Vec<Node>,
    pairs: &mut Vec<Sides>,
) -> Result<(), AllocError>
    requires nodes { nodes.old.items ≡ [] }
    requires pairs { pairs.old.items ≡ [] }
    ensures { OnOk result (Placing written.now nodes.new.items pairs.new.items (length written.now)) }
{
    for requirement in written {
        let RRequirement::Same(one, _, other) = requirement else {
            continue;
        };
        let left = add_type(alloc, nodes, &one.ty)?;
        let right = add_type(alloc, nodes, &other.ty)?;
        pairs.push(Sides { left, right })?;
    }
    Ok(())
}
