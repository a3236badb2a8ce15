//! Whether two declarations meet.

ghost use Rattle.std.specs.Prelude.{◌≡◌, map};
ghost use Rattle.std.specs.Option.{option_map};
ghost use Rattle.evo_names.specs.Listed as listed;
ghost use Rattle.evo_names.specs.Meets as spec;
ghost use Rattle.evo_meeting.specs.Spots.{context_of, spot_view};

use crate::spot::{Context, Spot};
use evo_names::Sort;

fn same_name(a: &[u8], b: &[u8]) -> bool
    ensures { result ≡ spec.same_name a.now b.now }
{
    a == b
}

fn same_names(a: &[&[u8]], b: &[&[u8]]) -> bool
    ensures { result ≡ spec.same_names (map (λ t. t.now) a.now) (map (λ t. t.now) b.now) }
{
    match a {
        [] => b.is_empty(),
        [first, rest @ ..] => match b {
            [] => false,
            [other, others @ ..] => same_name(first, other) && same_names(rest, others),
        },
    }
}

fn same_labels(a: &Option<Vec<&[u8]>>, b: &Option<Vec<&[u8]>>) -> bool
    ensures { result ≡ spec.same_labels (option_map (λ v. map (λ t. t.now) v.items) a.now) (option_map (λ v. map (λ t. t.now) v.items) b.now) }
{
    match (a, b) {
        (None, None) => true,
        (Some(first), Some(second)) => same_names(first.as_slice(), second.as_slice()),
        _ => false,
    }
}

fn same_context(a: Context<'_>, b: Context<'_>) -> bool
    ensures { result ≡ spec.same_names (context_of a.entry) (context_of b.entry) }
{
    match (a, b) {
        (Context::Module(first), Context::Module(second)) => {
            same_name(first.as_slice(), second.as_slice())
        }
        (Context::Type(first), Context::Type(second)) => {
            same_name(first.module, second.module) && same_name(first.base, second.base)
        }
        _ => false,
    }
}

fn has_no_labels(spot: &Spot<'_>) -> bool
    ensures { result ≡ spec.has_no_labels (spot_view spot.now).labels }
{
    match &spot.labels {
        Some(labels) => labels.is_empty(),
        None => false,
    }
}

fn is_function(sort: Sort) -> bool
    ensures { result ≡ listed.is_function sort }
{
    matches!(sort, Sort::Function)
}

/// Whether the first is a requirement, and the second a member, not static, of an extension of its protocol in the same
/// module.
fn is_excused(a: &Spot<'_>, b: &Spot<'_>) -> bool
    ensures { result ≡ spec.is_excused (spot_view a.now) (spot_view b.now) }
{
    a.requirement && b.extends && !b.is_static && same_name(a.module, b.module)
}

/// Whether what has this sort meets the other whatever its labels, or where it has none.
fn covers(sort: Sort, other: &Spot<'_>) -> bool
    ensures { result ≡ spec.covers sort (spot_view other.now) }
{
    match sort {
        Sort::Property => is_function(other.sort) && has_no_labels(other),
        Sort::Type => is_function(other.sort),
        Sort::Case => is_function(other.sort),
        _ => false,
    }
}

fn clash(a: &Spot<'_>, b: &Spot<'_>) -> bool
    ensures { result ≡ spec.clash (spot_view a.now) (spot_view b.now) }
{
    if same_labels(&a.labels, &b.labels) {
        return !is_excused(a, b) && !is_excused(b, a);
    }
    covers(a.sort, b) || covers(b.sort, a)
}

/// Whether two declarations meet: they stand in one context, have one name, and may not both be there.
pub fn meets(a: &Spot<'_>, b: &Spot<'_>) -> bool
    ensures { result ≡ spec.meets (spot_view a.now) (spot_view b.now) }
{
    same_name(a.base, b.base) && same_context(a.context, b.context) && clash(a, b)
}
