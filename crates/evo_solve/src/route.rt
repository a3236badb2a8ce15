//! The steps that lead along the distances.

ghost use Rattle.std.specs.Prelude.{◌≡◌, ℕ, ◌<◌, ◌*◌, IfOk, OnOk, Some, length, slice_get};
ghost use Rattle.evo_solve.specs.Search.{Followed, IsPlace, Level, at, subtables_of};
ghost use Rattle.evo_solve.specs.Universe.{InRange};
ghost use Rattle.evo_solve.specs.declared.declarations.Subtable as steps;

use crate::classes::Classes;
use crate::declarations::Protocol;
use crate::distance::{Place, nearest};
use crate::graph::subtables;
use evo_base::Key;
use evo_resolved::Copied;
use std::alloc::{AllocError, Global};

fn name_of(
    alloc: Global,
    protocols: &[Protocol],
    protocol: usize,
    number: usize,
) -> Result<Key, AllocError>
    requires { number < length (subtables_of protocols.now protocol) }
    ensures { IfOk result (λ k. (step : steps.Subtable) → slice_get (subtables_of protocols.now protocol) number ≡ Some step → k ≡ step.name) }
{
    let steps = subtables(protocols, protocol);
    steps[number].name.copy(alloc)
}

/// Puts the names of the first steps of the least number behind others.
pub fn follow(
    alloc: Global,
    classes: &Classes,
    protocols: &[Protocol],
    distances: &[Option<usize>],
    sought: Place,
    from: Place,
    far: usize,
    names: &mut Vec<Key>,
) -> Result<(), AllocError>
    requires range { InRange classes.now.nodes.items classes.now.reps.items }
    requires protocol { sought.protocol < length protocols.now }
    requires level { (level : ℕ) × Level classes.now protocols.now sought.class sought.protocol level distances.now }
    requires place { IsPlace classes.now protocols.now from.class from.protocol }
    requires far { at distances.now (length protocols.now) from.class from.protocol ≡ Some far }
    ensures { OnOk result (Followed classes.now protocols.now sought.class sought.protocol from.class from.protocol far names.old.items names.new.items) }
{
    if far == 0 {
        return Ok(());
    }
    let Some(step) = nearest(
        classes,
        protocols,
        distances,
        from.class,
        from.protocol,
        far - 1,
    ) else {
        unreachable!();
    };
    let name = name_of(alloc, protocols, from.protocol, step.number)?;
    names.push(name)?;
    let next = Place {
        class: step.class,
        protocol: step.protocol,
    };
    follow(
        alloc,
        classes,
        protocols,
        distances,
        sought,
        next,
        far - 1,
        names,
    )
}
