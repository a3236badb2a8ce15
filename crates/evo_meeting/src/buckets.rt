//! Declarations by texts that are equal where they meet.

ghost use Rattle.std.specs.Prelude.{◌≡◌, ◌++◌, IfOk, OnOk, flat_map, map};
ghost use Rattle.evo_declarations.specs.Groups.{IsGrouped, numbers_of};
ghost use Rattle.evo_meeting.specs.Candidates as spec;
ghost use Rattle.evo_meeting.specs.Spots.{context_of, spot_view, spot_views};

use crate::spot::{Context, Spot};
use evo_declarations::{Groups, groups_of};
use evo_names::Sort;
use std::alloc::{AllocError, Global};

/// The numbers of declarations, by name and place, and of what is called by its labels too.
#[derive(Drop)]
pub(crate) struct Buckets {
    pub by_spot: Groups,
    pub by_call: Groups,
}

fn push_ended(text: &mut Vec<u8>, part: &[u8], end: u8) -> Result<(), AllocError>
    ensures { OnOk result (text.new.items ≡ text.old.items ++ spec.ended end part.now) }
{
    text.extend_from_slice(part)?;
    text.push(end)?;
    Ok(())
}

fn push_context(text: &mut Vec<u8>, context: Context<'_>) -> Result<(), AllocError>
    ensures { OnOk result (text.new.items ≡ text.old.items ++ flat_map (spec.ended 46) (context_of context.entry)) }
{
    match context {
        Context::Module(module) => push_ended(text, module.as_slice(), b'.'),
        Context::Type(ty) => {
            push_ended(text, ty.module, b'.')?;
            push_ended(text, ty.base, b'.')
        }
    }
}

fn push_names(text: &mut Vec<u8>, names: &[&[u8]]) -> Result<(), AllocError>
    ensures { OnOk result (text.new.items ≡ text.old.items ++ flat_map (spec.ended 58) (map (λ t. t.now) names.now)) }
{
    for name in names {
        push_ended(text, name, b':')?;
    }
    Ok(())
}

fn push_labels(text: &mut Vec<u8>, spot: &Spot<'_>) -> Result<(), AllocError>
    ensures { OnOk result (text.new.items ≡ text.old.items ++ spec.labels_text (spot_view spot.now).labels) }
{
    match &spot.labels {
        Some(labels) => {
            text.push(b':')?;
            push_names(text, labels.as_slice())
        }
        None => Ok(()),
    }
}

pub(crate) fn is_called(sort: Sort) -> bool
    ensures { result ≡ spec.is_called sort }
{
    matches!(sort, Sort::Function | Sort::Initialiser)
}

#[tactic(auto, unfolding(crate::specs::Candidates::spot_text))]
pub(crate) fn spot_text(alloc: Global, spot: &Spot<'_>) -> Result<Vec<u8>, AllocError>
    ensures { IfOk result (λ text. text.items ≡ spec.spot_text (spot_view spot.now)) }
{
    let mut text = Vec::new(alloc);
    push_ended(&mut text, spot.base, b'.')?;
    push_context(&mut text, spot.context)?;
    Ok(text)
}

#[tactic(auto, unfolding(crate::specs::Candidates::call_text))]
pub(crate) fn call_text(alloc: Global, spot: &Spot<'_>) -> Result<Vec<u8>, AllocError>
    ensures { IfOk result (λ text. text.items ≡ spec.call_text (spot_view spot.now)) }
{
    let mut text = spot_text(alloc, spot)?;
    if !is_called(spot.sort) {
        return Ok(text);
    }
    push_labels(&mut text, spot)?;
    Ok(text)
}

fn spot_texts(alloc: Global, spots: &[Spot<'_>]) -> Result<Vec<Vec<u8>>, AllocError>
    ensures { IfOk result (λ texts. map (λ t. t.items) texts.items ≡ map spec.spot_text (spot_views spots.now)) }
{
    let mut texts = Vec::new(alloc);
    for spot in spots {
        texts.push(spot_text(alloc, spot)?)?;
    }
    Ok(texts)
}

fn call_texts(alloc: Global, spots: &[Spot<'_>]) -> Result<Vec<Vec<u8>>, AllocError>
    ensures { IfOk result (λ texts. map (λ t. t.items) texts.items ≡ map spec.call_text (spot_views spots.now)) }
{
    let mut texts = Vec::new(alloc);
    for spot in spots {
        texts.push(call_text(alloc, spot)?)?;
    }
    Ok(texts)
}

fn borrowed(alloc: Global, texts: &[Vec<u8>]) -> Result<Vec<&[u8]>, AllocError>
    ensures { IfOk result (λ slices. map (λ s. s.now) slices.items ≡ map (λ t. t.items) texts.now) }
{
    let mut slices = Vec::new(alloc);
    for text in texts {
        slices.push(text.as_slice())?;
    }
    Ok(slices)
}

fn grouped(alloc: Global, texts: &[Vec<u8>]) -> Result<Groups, AllocError>
    ensures { IfOk result (λ groups. IsGrouped (map (λ t. t.items) texts.now) groups) }
{
    let slices = borrowed(alloc, texts)?;
    groups_of(alloc, slices.as_slice())
}

fn grouped_spots(alloc: Global, spots: &[Spot<'_>]) -> Result<Groups, AllocError>
    ensures { IfOk result (λ groups. IsGrouped (map spec.spot_text (spot_views spots.now)) groups) }
{
    let texts = spot_texts(alloc, spots)?;
    grouped(alloc, texts.as_slice())
}

fn grouped_calls(alloc: Global, spots: &[Spot<'_>]) -> Result<Groups, AllocError>
    ensures { IfOk result (λ groups. IsGrouped (map spec.call_text (spot_views spots.now)) groups) }
{
    let texts = call_texts(alloc, spots)?;
    grouped(alloc, texts.as_slice())
}

/// The buckets of these declarations.
pub(crate) fn buckets_of(alloc: Global, spots: &[Spot<'_>]) -> Result<Buckets, AllocError>
    ensures { IfOk result (λ b. spec.IsBucketed (spot_views spots.now) b) }
{
    let by_spot = grouped_spots(alloc, spots)?;
    let by_call = grouped_calls(alloc, spots)?;
    Ok(Buckets { by_spot, by_call })
}
