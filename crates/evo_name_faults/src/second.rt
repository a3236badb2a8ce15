//! Conformances that are there twice.

ghost use Rattle.std.specs.Prelude.{IfOk, MatchOption};
ghost use Rattle.evo_declarations.specs.Worlds.{world_of};
ghost use Rattle.evo_name_faults.specs.Second.{IsSecond, NoneSecond};

use crate::conformances::{push_imported_names, push_own_names};
use evo_base::Place;
use evo_declarations::World;
use evo_meeting::first_twice;
use std::alloc::{AllocError, Global};

/// The place of a conformance that the module has declared before, or that the import has too; nothing exactly where
/// there is none.
pub fn second_conformance(alloc: Global, world: World<'_>) -> Result<Option<Place>, AllocError>
    ensures { IfOk result (λ found. MatchOption found (NoneSecond (world_of world.entry)) (IsSecond (world_of world.entry))) }
{
    let mut names = Vec::new(alloc);
    push_imported_names(alloc, &mut names, world)?;
    let start = names.len();
    push_own_names(alloc, &mut names, world)?;
    first_twice(alloc, names.as_slice(), start)
}
