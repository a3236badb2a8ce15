//! The first path to a conformance.

ghost use Rattle.std.specs.Prelude.{◌≡◌, ℕ, ◌+◌, ◌*◌, ◌/◌, ◌%◌, ◌<◌, ◌^◌, List, None, Some, IfOk, MatchOption, OnOk, length};
ghost use Rattle.evo_base.specs.declared.key.Key as keys;
ghost use Rattle.evo_solve.specs.Answers.{Conformance};
ghost use Rattle.evo_solve.specs.Equal as equal;
ghost use Rattle.evo_solve.specs.Found.{Extended, FirstWay, FoundOrNone, IsKeyOf, IsStart, StartsTo, of_word};
ghost use Rattle.evo_solve.specs.Search.{Chosen, Level, StartAt, StartsIn, Arrives, nones, value};
ghost use Rattle.evo_solve.specs.Universe.{HasPath, InRange, IsSolved};
ghost use Rattle.evo_solve.specs.Ways.{IsNumber, PathOrNone, goal_of};
ghost use Rattle.evo_solve.specs.Words as table;

use crate::classes::{Classes, solve};
use crate::declarations::{Declarations, DeclaredConformance, Protocol};
use crate::distance::{Place, search};
use crate::graph::{class_of, number_of};
use crate::path::{SolveFault, Word};
use crate::representative::name_count;
use crate::route::follow;
use crate::words::table_words;
use evo_base::{Key, List};
use evo_resolved::{ConfPath, ConfStart, Copied, RType, Signature};
use std::alloc::{AllocError, Global};

// The place of a conformance, if it is one: its class and its protocol's number as one number.
fn start_of(
    classes: &Classes,
    protocols: &[Protocol],
    subject: &RType,
    protocol: &Key,
) -> Option<usize>
    requires range { InRange classes.now.nodes.items classes.now.reps.items }
    requires fits { length protocols.now * length classes.now.nodes.items < 2 ^ 64 }
    ensures { IsStart classes.now protocols.now subject.now protocol.now result }
{
    let Some(class) = class_of(classes, subject) else {
        return None;
    };
    let Some(number) = number_of(protocols, protocol) else {
        return None;
    };
    Some(class * protocols.len() + number)
}

// The places of the declared conformances.
fn add_declared(
    classes: &Classes,
    protocols: &[Protocol],
    declared: &[DeclaredConformance],
    starts: &mut Vec<Option<usize>>,
) -> Result<(), AllocError>
    requires range { InRange classes.now.nodes.items classes.now.reps.items }
    requires fits { length protocols.now * length classes.now.nodes.items < 2 ^ 64 }
    ensures { OnOk result (Extended classes.now protocols.now declared.now (length declared.now) starts.old.items starts.new.items) }
{
    for conformance in declared {
        let start = start_of(
            classes,
            protocols,
            &conformance.conformer,
            &conformance.protocol,
        );
        starts.push(start)?;
    }
    Ok(())
}

// The places of the required conformances.
fn required_starts(
    alloc: Global,
    classes: &Classes,
    protocols: &[Protocol],
    words: &[Word],
) -> Result<Vec<Option<usize>>, AllocError>
    requires range { InRange classes.now.nodes.items classes.now.reps.items }
    requires fits { length protocols.now * length classes.now.nodes.items < 2 ^ 64 }
    ensures { IfOk result (λ starts. StartsTo classes.now protocols.now words.now of_word (length words.now) starts.items) }
{
    let mut starts = Vec::new(alloc);
    for word in words {
        let start = start_of(classes, protocols, &word.subject, &word.protocol);
        starts.push(start)?;
    }
    Ok(starts)
}

fn unknown(alloc: Global, count: usize) -> Result<Vec<Option<usize>>, AllocError>
    ensures size { IfOk result (λ distances. length distances.items ≡ count) }
    ensures none { IfOk result (λ distances. (s : ℕ) → value distances.items s ≡ None) }
    ensures nones { IfOk result (λ distances. nones distances.items ≡ count) }
{
    let mut distances = Vec::new(alloc);
    for _ in 0..count {
        distances.push(None)?;
    }
    Ok(distances)
}

// The names of the steps from a start.
fn names_from(
    alloc: Global,
    classes: &Classes,
    protocols: &[Protocol],
    starts: &[Option<usize>],
    distances: &[Option<usize>],
    sought: Place,
    start: usize,
) -> Result<Vec<Key>, AllocError>
    requires range { InRange classes.now.nodes.items classes.now.reps.items }
    requires protocol { sought.protocol < length protocols.now }
    requires starts { StartsIn starts.now distances.now }
    requires level { (level : ℕ) × Level classes.now protocols.now sought.class sought.protocol level distances.now }
    requires chosen { Chosen classes.now protocols.now sought.class sought.protocol starts.now distances.now start }
    ensures { IfOk result (λ names. FirstWay classes.now protocols.now sought.class sought.protocol starts.now start names.items) }
{
    let count = protocols.len();
    let Some(place) = starts[start] else {
        unreachable!();
    };
    let Some(far) = distances[place] else {
        unreachable!();
    };
    let from = Place {
        class: place / count,
        protocol: place % count,
    };
    let mut names = Vec::new(alloc);
    follow(
        alloc, classes, protocols, distances, sought, from, far, &mut names,
    )?;
    Ok(names)
}

// The first of the shortest ways from a start to a place, by its start and the names of its steps.
fn first_way(
    alloc: Global,
    classes: &Classes,
    protocols: &[Protocol],
    starts: &[Option<usize>],
    size: usize,
    sought: Place,
) -> Result<Option<(usize, Vec<Key>)>, AllocError>
    requires range { InRange classes.now.nodes.items classes.now.reps.items }
    requires class { sought.class < length classes.now.nodes.items }
    requires protocol { sought.protocol < length protocols.now }
    requires size { size ≡ length protocols.now * length classes.now.nodes.items }
    requires starts { (i s : ℕ) → StartAt starts.now i s → s < size }
    ensures { IfOk result (λ o. MatchOption o ((i s : ℕ) (js : List ℕ) (ks : List keys.Key) → StartAt starts.now i s → Arrives classes.now protocols.now sought.class sought.protocol js ks (s / length protocols.now) (s % length protocols.now) → ⊥) (λ w. FirstWay classes.now protocols.now sought.class sought.protocol starts.now w.0 w.1.items)) }
{
    let mut distances = unknown(alloc, size)?;
    distances[sought.class * protocols.len() + sought.protocol] = Some(0);
    let Some(start) = search(classes, protocols, starts, sought, &mut distances) else {
        return Ok(None);
    };
    let names = names_from(alloc, classes, protocols, starts, &distances, sought, start)?;
    Ok(Some((start, names)))
}

// What a start is in a path.
fn start_key(
    alloc: Global,
    words: &[Word],
    declared: &[DeclaredConformance],
    start: usize,
) -> Result<ConfStart, AllocError>
    requires { start < length words.now + length declared.now }
    ensures { IfOk result (λ s. IsKeyOf words.now declared.now start s) }
{
    if start >= words.len() {
        let key = declared[start - words.len()].key.copy(alloc)?;
        return Ok(ConfStart::Declared(key));
    }
    match u32::try_from(start) {
        Ok(number) => Ok(ConfStart::Required(number)),
        Err(_) => Err(AllocError),
    }
}

// The first path from these starts, as the path that it is.
fn path_from(
    alloc: Global,
    classes: &Classes,
    protocols: &[Protocol],
    declared: &[DeclaredConformance],
    words: &[Word],
    starts: &[Option<usize>],
    size: usize,
    sought: Place,
) -> Result<Option<ConfPath>, AllocError>
    requires range { InRange classes.now.nodes.items classes.now.reps.items }
    requires class { sought.class < length classes.now.nodes.items }
    requires protocol { sought.protocol < length protocols.now }
    requires size { size ≡ length protocols.now * length classes.now.nodes.items }
    requires inside { (i s : ℕ) → StartAt starts.now i s → s < size }
    requires starts { length starts.now ≡ length words.now + length declared.now }
    ensures { IfOk result (FoundOrNone classes.now protocols.now sought.class sought.protocol words.now declared.now starts.now) }
{
    let Some((start, names)) = first_way(alloc, classes, protocols, starts, size, sought)? else {
        return Ok(None);
    };
    let start = start_key(alloc, words, declared, start)?;
    let steps = List::from_vec(names);
    Ok(Some(ConfPath { start, steps }))
}

fn path_among(
    alloc: Global,
    declarations: &Declarations,
    signature: &Signature,
    ty: &RType,
    protocol: &Key,
    classes: &Classes,
    node: usize,
    number: usize,
) -> Result<Option<ConfPath>, AllocError>
    requires solved { IsSolved signature.now.requirements classes.now.nodes.items classes.now.reps.items }
    requires has { HasPath classes.now.nodes.items node (equal.path_of ty.now) }
    requires number { IsNumber declarations.now.protocols protocol.now number }
    ensures { IfOk result (PathOrNone (goal_of signature.now declarations.now ty.now protocol.now)) }
{
    let protocols = declarations.protocols.as_slice();
    let declared = declarations.conformances.as_slice();
    let Some(size) = protocols.len().checked_mul(classes.nodes.len()) else {
        return Err(AllocError);
    };
    let words = table_words(alloc, signature)?;
    let mut starts = required_starts(alloc, classes, protocols, &words)?;
    add_declared(classes, protocols, declared, &mut starts)?;
    let reps = classes.reps.as_slice();
    let sought = Place {
        class: reps[node],
        protocol: number,
    };
    path_from(
        alloc, classes, protocols, declared, &words, &starts, size, sought,
    )
}

fn path_to(
    alloc: Global,
    declarations: &Declarations,
    signature: &Signature,
    ty: &RType,
    protocol: &Key,
) -> Result<Option<ConfPath>, AllocError>
    ensures { IfOk result (PathOrNone (goal_of signature.now declarations.now ty.now protocol.now)) }
{
    let Some(number) = number_of(declarations.protocols.as_slice(), protocol) else {
        return Ok(None);
    };
    let (classes, node) = solve(alloc, signature.requirements.as_slice(), ty)?;
    path_among(
        alloc,
        declarations,
        signature,
        ty,
        protocol,
        &classes,
        node,
        number,
    )
}

/// The shortest path to the conformance of a type to a protocol, and of these the first by its start and then by its
/// steps. A start that is required comes before one that is declared.
pub fn conformance(
    alloc: Global,
    declarations: &Declarations,
    signature: &Signature,
    ty: &RType,
    protocol: &Key,
) -> Result<ConfPath, SolveFault>
    ensures { Conformance (goal_of signature.now declarations.now ty.now protocol.now) result }
{
    if name_count(ty) > 4 {
        return Err(SolveFault::Long);
    }
    match path_to(alloc, declarations, signature, ty, protocol) {
        Ok(Some(path)) => Ok(path),
        Ok(None) => Err(SolveFault::NoPath),
        Err(_) => Err(SolveFault::Memory),
    }
}
