//! Objects of functions alone.

ghost use Rattle.std.specs.Prelude.{◌≡◌};
ghost use Rattle.evo_first_code.specs.Objects.{first_release as the_release, object_of as the_object};

use evo_base::{List, Name, Release};
use evo_code::{Function, Import, Object};
use std::alloc::Global;

// The release that modules of the first form have.
fn first_release() -> Release
    ensures { result ≡ the_release }
{
    Release { major: 1, minor: 0 }
}

/// The object of a module that has these functions, and needs these symbols.
pub fn object_of(
    alloc: Global,
    name: Name,
    imports: Vec<Import>,
    functions: Vec<Function>,
) -> Object
    ensures { result ≡ the_object name imports.items functions.items }
{
    Object {
        module: name,
        release: first_release(),
        symbols: List::from_vec(Vec::new(alloc)),
        imports: List::from_vec(imports),
        sizes: List::from_vec(Vec::new(alloc)),
        functions: List::from_vec(functions),
        classes: List::from_vec(Vec::new(alloc)),
        protocols: List::from_vec(Vec::new(alloc)),
        conformances: List::from_vec(Vec::new(alloc)),
    }
}
