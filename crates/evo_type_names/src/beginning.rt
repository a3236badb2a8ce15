//! What names begin with, and the names behind it.

ghost use Rattle.std.specs.Prelude.{◌≡◌, ◌≤◌, IfOk, if◌then◌else◌, length};
ghost use Rattle.std.specs.Option.{option_and_then, option_map};
ghost use Rattle.evo_declarations.specs.Heads.{found_head};
ghost use Rattle.evo_declarations.specs.Worlds.{world_of};
ghost use Rattle.evo_names.specs.Heads as heads;
ghost use Rattle.evo_names.specs.Written as written;
ghost use Rattle.evo_type_names.specs.Prefixes.{begin_from, beginning_view, found_nearer, has_self, module_free_by, number_from, qualified_by};
ghost use Rattle.evo_type_names.specs.Starts.{scope_of, start_view};

use crate::round::found_around;
use crate::scope::Scope;
use crate::start::Start;
use evo_base::Name;
use evo_declarations::{Head, named, qualified};
use evo_members::{Around, Space};
use evo_tree::{GenericParameter, NominalKind};
use std::alloc::{AllocError, Global};

/// What names begin with, and the names behind it.
#[derive(Clone, Copy)]
pub(crate) struct Begun<'a> {
    pub start: Start<'a>,
    pub rest: &'a [Name],
}

/// Whether the parameter 0 is `Self`.
fn is_in_protocol(around: Around<'_>) -> bool
    ensures { result ≡ has_self around.entry }
{
    matches!(around, Around::InProtocol(_, _))
}

/// The number of a generic parameter, behind `Self` where there is one.
fn numbered(behind_self: bool, name: &[u8], generics: &[GenericParameter]) -> Option<u32>
    requires { length generics.now ≤ 4 }
    ensures { result ≡ number_from (if behind_self then 1 else 0) name.now generics.now }
{
    for (number, generic) in generics.iter().enumerate() {
        if name == generic.name.text.as_slice() {
            if behind_self {
                return Some(number as u32 + 1);
            }
            return Some(number as u32);
        }
    }
    None
}

fn generic<'a>(space: &Space<'a>, scope: Scope<'a>, name: &[u8]) -> Option<Start<'a>>
    ensures { option_map (start_view (world_of space.now.world)) result ≡ written.generic (scope_of space.now.world scope.entry) name.now }
{
    match numbered(is_in_protocol(scope.around), name, scope.generics) {
        Some(number) => Some(Start::Parameter(number)),
        None => None,
    }
}

/// A generic parameter, else what is found by what stands round it.
fn nearer<'a>(
    alloc: Global,
    space: &Space<'a>,
    scope: Scope<'a>,
    name: &'a Name,
) -> Result<Option<Start<'a>>, AllocError>
    ensures { IfOk result (λ o. option_map (start_view (world_of space.now.world)) o ≡ found_nearer (world_of space.now.world) (scope_of space.now.world scope.entry) name.now) }
{
    match generic(space, scope, name.as_slice()) {
        Some(start) => Ok(Some(start)),
        None => found_around(alloc, space, scope.view(space.world), scope.around, name),
    }
}

fn type_of_head<'a>(space: &Space<'a>, head: Option<Head<'a>>) -> Option<Start<'a>>
    ensures { option_map (start_view (world_of space.now.world)) result ≡ option_and_then written.type_of_head (found_head head.entry) }
{
    match head {
        Some(head) => match head.kind {
            NominalKind::Protocol => None,
            _ => Some(Start::Named(head.key)),
        },
        None => None,
    }
}

fn top_named<'a>(space: &Space<'a>, scope: Scope<'a>, name: &'a [u8]) -> Option<Head<'a>>
    ensures { found_head result ≡ heads.named (scope_of space.now.world scope.entry).home name.now }
{
    named(space.world.at(scope.home), name)
}

/// Whether a name may be that of a module: nothing else is found by it.
fn is_free<'a>(space: &Space<'a>, scope: Scope<'a>, near: Option<Start<'a>>, name: &'a [u8]) -> bool
    ensures { result ≡ module_free_by (option_map (start_view (world_of space.now.world)) near.entry) (heads.named (scope_of space.now.world scope.entry).home name.now) }
{
    match near {
        Some(_) => false,
        None => match top_named(space, scope, name) {
            Some(_) => false,
            None => true,
        },
    }
}

fn of_module<'a>(
    space: &Space<'a>,
    scope: Scope<'a>,
    module: &[u8],
    name: &'a [u8],
) -> Option<Start<'a>>
    ensures { option_map (start_view (world_of space.now.world)) result ≡ option_and_then written.type_of_head (heads.qualified (scope_of space.now.world scope.entry).home «module».now name.now) }
{
    type_of_head(space, qualified(space.world.at(scope.home), module, name))
}

fn qualified_start<'a>(
    space: &Space<'a>,
    scope: Scope<'a>,
    near: Option<Start<'a>>,
    first: &'a [u8],
    names: &'a [Name],
) -> Option<Begun<'a>>
    ensures { option_map (beginning_view (world_of space.now.world)) result ≡ qualified_by (option_map (start_view (world_of space.now.world)) near.entry) (scope_of space.now.world scope.entry).home first.now names.now }
{
    match names {
        [] => None,
        [second, rest @ ..] => {
            if !is_free(space, scope, near, first) {
                return None;
            }
            match of_module(space, scope, first, second.as_slice()) {
                Some(start) => Some(Begun { start, rest }),
                None => None,
            }
        }
    }
}

fn begin_by<'a>(
    space: &Space<'a>,
    scope: Scope<'a>,
    near: Option<Start<'a>>,
    first: &'a [u8],
    rest: &'a [Name],
) -> Option<Begun<'a>>
    ensures { option_map (beginning_view (world_of space.now.world)) result ≡ begin_from (option_map (start_view (world_of space.now.world)) near.entry) (scope_of space.now.world scope.entry).home first.now rest.now }
{
    match near {
        Some(start) => Some(Begun { start, rest }),
        None => match type_of_head(space, top_named(space, scope, first)) {
            Some(start) => Some(Begun { start, rest }),
            None => qualified_start(space, scope, near, first, rest),
        },
    }
}

/// What names begin with, and the names behind it. The name of a module is one where the search finds nothing else of
/// that name.
#[tactic(auto, unfolding(evo_names::specs::Written::beginning, crate::specs::Round::around_found))]
pub(crate) fn begin<'a>(
    alloc: Global,
    space: &Space<'a>,
    scope: Scope<'a>,
    names: &'a [Name],
) -> Result<Option<Begun<'a>>, AllocError>
    ensures { IfOk result (λ o. option_map (beginning_view (world_of space.now.world)) o ≡ written.beginning (world_of space.now.world) (scope_of space.now.world scope.entry) names.now) }
{
    match names {
        [] => Ok(None),
        [first, rest @ ..] => {
            let near = nearer(alloc, space, scope, first)?;
            Ok(begin_by(space, scope, near, first.as_slice(), rest))
        }
    }
}
