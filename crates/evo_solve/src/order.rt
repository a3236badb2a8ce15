//! The orders of names, paths and protocols.

ghost use Rattle.std.specs.Prelude.{◌≡◌};
ghost use Rattle.std.specs.Ordering.{is_lt};
ghost use Rattle.evo_solve.specs.Canonical as canonical;

use crate::path::Path;
use evo_base::Name;
use evo_resolved::RType;
use std::cmp::Ordering;

/// By the first name that differs, and else by the lengths. Names are in the order of their bytes.
pub fn compare_names(a: &[Name], b: &[Name]) -> Ordering
    ensures { result ≡ canonical.names_order a.now b.now }
{
    for i in 0..a.len() {
        if i >= b.len() {
            return Ordering::Greater;
        }
        let order = a[i].as_slice().cmp(b[i].as_slice());
        if order != Ordering::Equal {
            return order;
        }
    }
    if a.len() < b.len() {
        Ordering::Less
    } else {
        Ordering::Equal
    }
}

/// The number of a parameter, also with names behind it; 0 for other types.
pub fn number(ty: &RType) -> u32
    ensures { result ≡ canonical.number ty.now }
{
    match ty {
        RType::Param(number) => *number,
        RType::Assoc(number, _) => *number,
        _ => 0,
    }
}

fn compare_paths(p: &Path, q: &Path) -> Ordering
    ensures { result ≡ canonical.path_order p.now q.now }
{
    let a = p.names.as_slice();
    let b = q.names.as_slice();
    match a.len().cmp(&b.len()) {
        Ordering::Equal => match number(&p.first).cmp(&number(&q.first)) {
            Ordering::Equal => compare_names(a, b),
            unequal => unequal,
        },
        unequal => unequal,
    }
}

/// Whether a path comes before another.
pub fn comes_before(p: &Path, q: &Path) -> bool
    ensures { result ≡ is_lt (canonical.path_order p.now q.now) }
{
    matches!(compare_paths(p, q), Ordering::Less)
}
