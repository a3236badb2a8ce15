//! What written types mean, each place once.

ghost use Rattle.std.specs.Prelude.{◌≡◌, ◌∷◌, ◌++◌, ◌+◌, ◌<◌, ◌↔◌, [], IfOk, IsTrue, OnOk, length};
ghost use Rattle.evo_declarations.specs.Worlds.{world_of};
ghost use Rattle.evo_type_names.specs.Known.{AllKnown};
ghost use Rattle.evo_type_names.specs.Resolving.{Chained, Distinct, HasTurned, IsMeaning, IsOn};
ghost use Rattle.evo_type_names.specs.Starts.{scope_of};

use crate::known::{Known, is_same_place};
use crate::meaning::Meaning;
use crate::scope::Scope;
use crate::walk::{Outcome, tried, tried_place};
use evo_base::Name;
use evo_members::{Located, Space};
use std::alloc::{AllocError, Global};

fn is_on(stack: &[Located<'_>], located: Located<'_>) -> bool
    ensures { IsTrue result ↔ IsOn stack.now located.entry }
{
    for one in stack {
        if is_same_place(*one, located) {
            return true;
        }
    }
    false
}

fn note<'a>(
    known: &mut Vec<Known<'a>>,
    located: Located<'a>,
    found: Option<Meaning<'a>>,
) -> Result<(), AllocError>
    ensures { OnOk result (known.new.items ≡ known.old.items ++ (record { located = located.entry; found = found.entry }) ∷ []) }
{
    known.push(Known { located, found })?;
    Ok(())
}

/// What is last is tried: it is noted, or what it wants comes on the stack behind it. What wants itself, by others or
/// not, means nothing.
fn turn<'a>(
    alloc: Global,
    space: &Space<'a>,
    known: &mut Vec<Known<'a>>,
    stack: &mut Vec<Located<'a>>,
    top: Located<'a>,
) -> Result<(), AllocError>
    requires { AllKnown (world_of space.now.world) known.old.items × Chained (world_of space.now.world) (stack.old.items ++ top ∷ []) × Distinct (stack.old.items ++ top ∷ []) }
    ensures { OnOk result (HasTurned (world_of space.now.world) known.old.items stack.old.items known.new.items stack.new.items) }
{
    match tried_place(alloc, space, known.as_slice(), top)? {
        Outcome::Means(meaning) => {
            note(known, top, Some(meaning))?;
            Ok(())
        }
        Outcome::Nothing => {
            note(known, top, None)?;
            Ok(())
        }
        Outcome::Wants(next) => {
            if is_same_place(top, next) || is_on(stack.as_slice(), next) {
                note(known, top, None)?;
                return Ok(());
            }
            stack.push(top)?;
            stack.push(next)?;
            Ok(())
        }
    }
}

/// What is written in a place is known then.
fn resolve<'a>(
    alloc: Global,
    space: &Space<'a>,
    known: &mut Vec<Known<'a>>,
    located: Located<'a>,
) -> Result<(), AllocError>
    requires { AllKnown (world_of space.now.world) known.old.items }
    ensures all { OnOk result (AllKnown (world_of space.now.world) known.new.items) }
    ensures more { OnOk result (length known.old.items < length known.new.items) }
{
    let mut stack = Vec::new(alloc);
    stack.push(located)?;
    while let Some(top) = stack.pop() {
        turn(alloc, space, known, &mut stack, top)?;
    }
    Ok(())
}

/// What names written in a scope mean: the type, and the `typealias`es that are met on the way to it. What leads to
/// itself means nothing. What is found out on the way is kept for the next call.
pub fn meaning_of<'a>(
    alloc: Global,
    space: &Space<'a>,
    known: &mut Vec<Known<'a>>,
    scope: Scope<'a>,
    names: &'a [Name],
) -> Result<Option<Meaning<'a>>, AllocError>
    requires { AllKnown (world_of space.now.world) known.old.items }
    ensures kept { OnOk result (AllKnown (world_of space.now.world) known.new.items) }
    ensures means { IfOk result (λ o. IsMeaning (world_of space.now.world) (scope_of space.now.world scope.entry) names.now o) }
{
    'tries: loop {
        match tried(alloc, space, known.as_slice(), None, scope, names)? {
            Outcome::Means(meaning) => return Ok(Some(meaning)),
            Outcome::Nothing => return Ok(None),
            Outcome::Wants(next) => resolve(alloc, space, known, next)?,
        }
    }
}

/// The same, by what is known already. What has to be known besides is found out for this answer alone.
pub fn meaning_by<'a>(
    alloc: Global,
    space: &Space<'a>,
    known: &[Known<'a>],
    scope: Scope<'a>,
    names: &'a [Name],
) -> Result<Option<Meaning<'a>>, AllocError>
    requires { AllKnown (world_of space.now.world) known.now }
    ensures { IfOk result (λ o. IsMeaning (world_of space.now.world) (scope_of space.now.world scope.entry) names.now o) }
{
    match tried(alloc, space, known, None, scope, names)? {
        Outcome::Means(meaning) => Ok(Some(meaning)),
        Outcome::Nothing => Ok(None),
        Outcome::Wants(_) => {
            let mut fresh = Vec::new(alloc);
            let found = meaning_of(alloc, space, &mut fresh, scope, names)?;
            Ok(found)
        }
    }
}
