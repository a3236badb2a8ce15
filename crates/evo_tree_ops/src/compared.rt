//! Trees that are the same but for places.

ghost use Rattle.std.specs.Prelude.{◌≡◌, ◌↔◌, IsTrue, map};
ghost use Rattle.std.specs.Option.{option_map};

use evo_base::{List, Name};

/// What can be compared but for places.
pub(crate) trait Compared {
    /// The value without its places.
    ghost bare: { Self → Self };

    /// Whether both are the same but for places.
    fn same(&self, other: &Self) -> bool
        ensures { IsTrue result ↔ (bare self.now ≡ bare other.now) };
}

/// Whether both are true.
pub(crate) fn both(a: bool, b: bool) -> bool
    ensures { IsTrue result ↔ (IsTrue a × IsTrue b) }
{
    a && b
}

pub(crate) fn same_list<T: Compared>(a: &List<T>, b: &List<T>) -> bool
    ensures { IsTrue result ↔ (map T.bare a.now ≡ map T.bare b.now) }
{
    let xs = a.as_slice();
    let ys = b.as_slice();
    if xs.len() != ys.len() {
        return false;
    }
    for i in 0..xs.len() {
        if !xs[i].same(&ys[i]) {
            return false;
        }
    }
    true
}

pub(crate) fn same_option<T: Compared>(a: &Option<T>, b: &Option<T>) -> bool
    ensures { IsTrue result ↔ (option_map T.bare a.now ≡ option_map T.bare b.now) }
{
    match a {
        Some(x) => match b {
            Some(y) => x.same(y),
            None => false,
        },
        None => match b {
            Some(_) => false,
            None => true,
        },
    }
}

impl Compared for Name {
    ghost bare = { λ n. n };

    fn same(&self, other: &Name) -> bool {
        self.as_slice() == other.as_slice()
    }
}
