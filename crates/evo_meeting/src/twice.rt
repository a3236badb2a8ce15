//! Whether two of a list of declarations meet.

ghost use Rattle.std.specs.Prelude.{◌≡◌, IfOk, MatchOption};
ghost use Rattle.evo_declarations.specs.Groups.{group_of};
ghost use Rattle.evo_meeting.specs.Candidates as spec;
ghost use Rattle.evo_meeting.specs.Spots.{spot_view, spot_views};
ghost use Rattle.evo_names.specs.Meets.{IsTwice, NoneTwice};

use crate::buckets::{Buckets, buckets_of, call_text, is_called, spot_text};
use crate::meeting::meets;
use crate::spot::Spot;
use evo_base::Place;
use evo_declarations::Groups;
use std::alloc::{AllocError, Global};

fn met_at(spots: &[Spot<'_>], number: usize, spot: &Spot<'_>, earlier: usize) -> bool
    ensures { result ≡ spec.met_at (spot_views spots.now) number (spot_view spot.now) earlier }
{
    if earlier >= number {
        return false;
    }
    match spots.get(earlier) {
        Some(other) => meets(other, spot),
        None => false,
    }
}

#[tactic(auto, unfolding(crate::specs::Candidates::met_among))]
fn met_among(spots: &[Spot<'_>], number: usize, spot: &Spot<'_>, candidates: &[usize]) -> bool
    ensures { result ≡ spec.met_among (spot_views spots.now) number (spot_view spot.now) candidates.now }
{
    candidates
        .iter()
        .any(|&earlier| met_at(spots, number, spot, earlier))
}

/// Whether one of those with this text comes before the number, and meets the declaration.
fn met_in(spots: &[Spot<'_>], groups: &Groups, number: usize, spot: &Spot<'_>, text: &[u8]) -> bool
    ensures { result ≡ spec.met_among (spot_views spots.now) number (spot_view spot.now) (group_of groups.now text.now) }
{
    met_among(spots, number, spot, groups.having(text))
}

/// Whether an earlier declaration meets this one.
fn is_met(
    alloc: Global,
    spots: &[Spot<'_>],
    buckets: &Buckets,
    number: usize,
    spot: &Spot<'_>,
) -> Result<bool, AllocError>
    requires { spec.IsBucketed (spot_views spots.now) buckets.now }
    ensures { IfOk result (λ met. met ≡ spec.met_among (spot_views spots.now) number (spot_view spot.now) (spec.candidates (spot_views spots.now) (spot_view spot.now))) }
{
    let text = spot_text(alloc, spot)?;
    if !is_called(spot.sort) {
        let met = met_in(spots, &buckets.by_spot, number, spot, text.as_slice());
        return Ok(met);
    }
    let call = call_text(alloc, spot)?;
    let labelled = met_in(spots, &buckets.by_call, number, spot, call.as_slice());
    let plain = met_in(spots, &buckets.by_call, number, spot, text.as_slice());
    Ok(labelled | plain)
}

fn first_met(
    alloc: Global,
    spots: &[Spot<'_>],
    buckets: &Buckets,
    start: usize,
) -> Result<Option<Place>, AllocError>
    requires { spec.IsBucketed (spot_views spots.now) buckets.now }
    ensures { IfOk result (λ found. MatchOption found (NoneTwice (spot_views spots.now) start) (λ place. IsTwice (spot_views spots.now) start place)) }
{
    for number in start..spots.len() {
        let spot = &spots[number];
        if is_met(alloc, spots, buckets, number, spot)? {
            return Ok(Some(spot.place));
        }
    }
    Ok(None)
}

/// The place of a declaration that meets an earlier one, among those from `start` on; nothing exactly where there is
/// none.
pub fn first_twice(
    alloc: Global,
    spots: &[Spot<'_>],
    start: usize,
) -> Result<Option<Place>, AllocError>
    ensures { IfOk result (λ found. MatchOption found (NoneTwice (spot_views spots.now) start) (λ place. IsTwice (spot_views spots.now) start place)) }
{
    let buckets = buckets_of(alloc, spots)?;
    first_met(alloc, spots, &buckets, start)
}
