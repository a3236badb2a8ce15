//! Faults of headers.

ghost use Rattle.std.specs.Prelude.{◌≡◌, IfOk, MatchOption, Some};
ghost use Rattle.evo_declarations.specs.Limits as limits;
ghost use Rattle.evo_declarations.specs.Worlds.{world_of};
ghost use Rattle.evo_name_faults.specs.Left.{OnlyLeft};
ghost use Rattle.evo_name_faults.specs.Others.{IsFaultAt, OnlyOthers};

use crate::met::own_meeting;
use crate::second::second_conformance;
use crate::taken::taken_name;
use crate::unknown::unknown_name;
use evo_base::{FaultKind, Place};
use evo_declarations::World;
use evo_tree::SourceFault;
use std::alloc::{AllocError, Global};

fn past_limit(world: World<'_>) -> Option<Place>
    ensures { result ≡ limits.past_limit (world_of world.entry).own }
{
    let own = world.own;
    own.listing.past_limit()
}

fn fault(kind: FaultKind, place: Place) -> Option<SourceFault>
    ensures { result ≡ Some (record { kind = kind; place = place }) }
{
    Some(SourceFault { kind, place })
}

/// A fault that one declaration tells by itself, the items past a limit first.
fn single_fault(world: World<'_>) -> Option<SourceFault>
    ensures { MatchOption result (OnlyLeft (world_of world.entry)) (IsFaultAt (world_of world.entry)) }
{
    match past_limit(world) {
        Some(place) => fault(FaultKind::TooMany, place),
        None => match unknown_name(world) {
            Some(place) => fault(FaultKind::Unknown, place),
            None => match taken_name(world) {
                Some(place) => fault(FaultKind::Twice, place),
                None => None,
            },
        },
    }
}

/// A fault of names in a module's headers, the items past a limit first. Where there is none, each fault is that a
/// declaration meets one that is seen of the import, or that a written type means nothing.
pub fn header_fault(alloc: Global, world: World<'_>) -> Result<Option<SourceFault>, AllocError>
    ensures { IfOk result (λ found. MatchOption found (OnlyOthers (world_of world.entry)) (IsFaultAt (world_of world.entry))) }
{
    match single_fault(world) {
        Some(found) => Ok(Some(found)),
        None => match second_conformance(alloc, world)? {
            Some(place) => Ok(fault(FaultKind::Twice, place)),
            None => match own_meeting(alloc, world)? {
                Some(place) => Ok(fault(FaultKind::Twice, place)),
                None => Ok(None),
            },
        },
    }
}
