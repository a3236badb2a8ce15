//! How many steps lead from each place, a class with a protocol, to the place that is sought.

ghost use Rattle.std.specs.Prelude.{◌≡◌, ℕ, ◌<◌, ◌≤◌, ◌+◌, ◌*◌, ◌/◌, ◌%◌, ◌↔◌, List, None, Some, IsTrue, MatchBool, MatchOption, length, slice_set};
ghost use Rattle.std.specs.Bool.{OnFalse, OnTrue};
ghost use Rattle.evo_solve.specs.Search.{Chosen, IsNearest, Level, Near, Rounded, StartAt, StartsIn, Arrives, at, nones, value};
ghost use Rattle.evo_base.specs.declared.key.Key as keys;
ghost use Rattle.evo_solve.specs.Universe.{InRange};

use crate::classes::Classes;
use crate::declarations::Protocol;
use crate::graph::{moved, subtables};

/// A class with a protocol.
#[derive(Clone, Copy)]
pub struct Place {
    pub class: usize,
    pub protocol: usize,
}

/// A step from a place: the number of the subtable, and where it leads.
#[derive(Clone, Copy)]
pub struct Step {
    pub number: usize,
    pub class: usize,
    pub protocol: usize,
}

// Whether a place is this far.
fn is_far(
    distances: &[Option<usize>],
    count: usize,
    class: usize,
    protocol: usize,
    far: usize,
) -> bool
    requires { (protocol < count → class * count + protocol < length distances.now) }
    ensures { IsTrue result ↔ ((protocol < count) × (at distances.now count class protocol ≡ Some far)) }
{
    if protocol >= count {
        return false;
    }
    match distances[class * count + protocol] {
        Some(own) => own == far,
        None => false,
    }
}

/// The first step to a place that is this far.
pub fn nearest(
    classes: &Classes,
    protocols: &[Protocol],
    distances: &[Option<usize>],
    class: usize,
    protocol: usize,
    far: usize,
) -> Option<Step>
    requires range { InRange classes.now.nodes.items classes.now.reps.items }
    requires size { length distances.now ≡ length protocols.now * length classes.now.nodes.items }
    requires inside { class < length classes.now.nodes.items }
    ensures { MatchOption result (Near classes.now protocols.now distances.now class protocol far → ⊥) (λ s. IsNearest classes.now protocols.now distances.now class protocol far s) }
{
    let steps = subtables(protocols, protocol);
    for (j, step) in steps.iter().enumerate() {
        let Some(next) = moved(classes, class, &step.associated) else {
            continue;
        };
        if is_far(distances, protocols.len(), next, step.protocol, far) {
            return Some(Step {
                number: j,
                class: next,
                protocol: step.protocol,
            });
        }
    }
    None
}

// Whether a place has no distance yet, and one step leads from it to a place that is this far.
fn reaches(
    classes: &Classes,
    protocols: &[Protocol],
    distances: &[Option<usize>],
    place: usize,
    far: usize,
) -> bool
    requires range { InRange classes.now.nodes.items classes.now.reps.items }
    requires size { length distances.now ≡ length protocols.now * length classes.now.nodes.items }
    requires inside { place < length distances.now }
    requires some { 0 < length protocols.now }
    ensures { IsTrue result ↔ ((value distances.now place ≡ None) × Near classes.now protocols.now distances.now (place / length protocols.now) (place % length protocols.now) far) }
{
    if distances[place].is_some() {
        return false;
    }
    let count = protocols.len();
    nearest(
        classes,
        protocols,
        distances,
        place / count,
        place % count,
        far,
    )
    .is_some()
}

// Gives a place a distance, if it is to have one now; whether it is.
fn extend(
    classes: &Classes,
    protocols: &[Protocol],
    distances: &mut Vec<Option<usize>>,
    place: usize,
    far: usize,
) -> bool
    requires range { InRange classes.now.nodes.items classes.now.reps.items }
    requires size { length distances.old.items ≡ length protocols.now * length classes.now.nodes.items }
    requires inside { place < length distances.old.items }
    requires some { 0 < length protocols.now }
    requires room { far < length distances.old.items }
    ensures made { OnTrue result ((value distances.old.items place ≡ None) × Near classes.now protocols.now distances.old.items (place / length protocols.now) (place % length protocols.now) far × (distances.new.items ≡ slice_set distances.old.items place (Some (far + 1)))) }
    ensures skipped { OnFalse result ((distances.new.items ≡ distances.old.items) × ((value distances.old.items place ≡ None) × Near classes.now protocols.now distances.old.items (place / length protocols.now) (place % length protocols.now) far → ⊥)) }
{
    if !reaches(classes, protocols, distances, place, far) {
        return false;
    }
    distances[place] = Some(far + 1);
    true
}

// Gives a distance to the places that are one step farther off; whether there are any.
fn round(
    classes: &Classes,
    protocols: &[Protocol],
    distances: &mut Vec<Option<usize>>,
    far: usize,
) -> bool
    requires range { InRange classes.now.nodes.items classes.now.reps.items }
    requires size { length distances.old.items ≡ length protocols.now * length classes.now.nodes.items }
    requires some { 0 < length protocols.now }
    requires room { far < length distances.old.items }
    ensures rounded { Rounded classes.now protocols.now far distances.old.items distances.new.items (length distances.old.items) }
    ensures changed { MatchBool result (nones distances.new.items < nones distances.old.items) (distances.new.items ≡ distances.old.items) }
{
    let mut changed = false;
    for place in 0..distances.len() {
        if extend(classes, protocols, distances, place, far) {
            changed = true;
        }
    }
    changed
}

// The first start that has a distance.
fn first_known(starts: &[Option<usize>], distances: &[Option<usize>]) -> Option<usize>
    requires { StartsIn starts.now distances.now }
    ensures { MatchOption result ((i s : ℕ) → StartAt starts.now i s → value distances.now s ≡ None) (λ i. (s d : ℕ) × StartAt starts.now i s × (value distances.now s ≡ Some d) × ((j u : ℕ) → j < i → StartAt starts.now j u → value distances.now u ≡ None)) }
{
    for i in 0..starts.len() {
        if is_known(starts, distances, i) {
            return Some(i);
        }
    }
    None
}

fn is_known(starts: &[Option<usize>], distances: &[Option<usize>], i: usize) -> bool
    requires starts { StartsIn starts.now distances.now }
    requires inside { i < length starts.now }
    ensures { MatchBool result ((s d : ℕ) × StartAt starts.now i s × (value distances.now s ≡ Some d)) ((s : ℕ) → StartAt starts.now i s → value distances.now s ≡ None) }
{
    match starts[i] {
        Some(place) => distances[place].is_some(),
        None => false,
    }
}

/// The start from which the fewest steps lead to what is sought, and of these the first. Distances are found so far as
/// it takes.
pub fn search(
    classes: &Classes,
    protocols: &[Protocol],
    starts: &[Option<usize>],
    _sought: Place,
    distances: &mut Vec<Option<usize>>,
) -> Option<usize>
    requires range { InRange classes.now.nodes.items classes.now.reps.items }
    requires protocol { _sought.protocol < length protocols.now }
    requires starts { StartsIn starts.now distances.old.items }
    requires level { Level classes.now protocols.now _sought.class _sought.protocol 0 distances.old.items }
    requires room { nones distances.old.items < length distances.old.items }
    ensures known { (far : ℕ) × Level classes.now protocols.now _sought.class _sought.protocol far distances.new.items }
    ensures chosen { MatchOption result ((i s : ℕ) (js : List ℕ) (ks : List keys.Key) → StartAt starts.now i s → Arrives classes.now protocols.now _sought.class _sought.protocol js ks (s / length protocols.now) (s % length protocols.now) → ⊥) (λ i. Chosen classes.now protocols.now _sought.class _sought.protocol starts.now distances.new.items i) }
{
    let mut far = 0;
    'rounds: loop {
        if let Some(start) = first_known(starts, distances) {
            return Some(start);
        }
        if !round(classes, protocols, distances, far) {
            return None;
        }
        far += 1;
    }
}
