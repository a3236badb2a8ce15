//! Declarations of a module that meet.

ghost use Rattle.std.specs.Prelude.{IfOk, MatchOption};
ghost use Rattle.evo_declarations.specs.Worlds.{world_of};
ghost use Rattle.evo_names.specs.Keys.{declared_names};
ghost use Rattle.evo_names.specs.Meets.{IsTwice, NoneTwice};

use evo_base::Place;
use evo_declarations::World;
use evo_meeting::{first_twice, push_declared_names};
use std::alloc::{AllocError, Global};

/// The place of a declaration that meets an earlier one of the module; nothing exactly where there is none.
pub fn own_meeting(alloc: Global, world: World<'_>) -> Result<Option<Place>, AllocError>
    ensures { IfOk result (λ found. MatchOption found (NoneTwice (declared_names (world_of world.entry)) 0) (λ place. IsTwice (declared_names (world_of world.entry)) 0 place)) }
{
    let mut names = Vec::new(alloc);
    push_declared_names(alloc, &mut names, world)?;
    first_twice(alloc, names.as_slice(), 0)
}
