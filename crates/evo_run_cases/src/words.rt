//! Words of a line: numbers, names, layouts, places and arguments.

use evo_base::{List, Name};
use evo_code::{Arg, Layout, Operand};
use sqlite_items::Items;
use std::alloc::{AllocError, Global};

/// The word of a line with this number, counted from 0, or nothing.
pub fn word(line: &str, number: usize) -> &str {
    line.split_whitespace().nth(number).unwrap_or("")
}

/// What stands behind this word and the space behind it.
pub fn behind<'a>(line: &'a str, first: &str) -> Option<&'a str> {
    match line.split_once(' ') {
        Some((word, rest)) if word == first => Some(rest),
        _ => None,
    }
}

/// A number, or 0.
pub fn number(text: &str) -> u64 {
    text.parse::<u64>().unwrap_or(0)
}

/// A text.
pub fn name(alloc: Global, text: &str) -> Result<Name, AllocError> {
    Ok(Name::from_vec(Vec::from_slice(alloc, text.as_bytes())?))
}

// A number of words, or a symbol whose size it is.
fn one_layout(alloc: Global, text: &str) -> Result<Layout, AllocError> {
    match text.parse::<u64>() {
        Ok(words) => Ok(Layout::Words(words)),
        Err(_) => Ok(Layout::SizeOf(name(alloc, text)?)),
    }
}

fn sum(alloc: Global, text: &str) -> Result<Items<Layout>, AllocError> {
    let mut parts = Vec::new(alloc);
    for part in text.split('+') {
        parts.push(one_layout(alloc, part)?)?;
    }
    Ok(Items::from_vec(parts))
}

fn largest(alloc: Global, text: &str) -> Result<Items<Layout>, AllocError> {
    let mut parts = Vec::new(alloc);
    for part in text.split('|') {
        parts.push(one_layout(alloc, part)?)?;
    }
    Ok(Items::from_vec(parts))
}

/// A layout: `2`, `S`, `1+S` or `1|S`.
pub fn layout(alloc: Global, text: &str) -> Result<Layout, AllocError> {
    if text.contains('+') {
        return Ok(Layout::Sum(sum(alloc, text)?));
    }
    if text.contains('|') {
        return Ok(Layout::Max(largest(alloc, text)?));
    }
    one_layout(alloc, text)
}

/// Layouts with commas between them, or `-` for none.
pub fn layouts(alloc: Global, text: &str) -> Result<List<Layout>, AllocError> {
    let mut found = Vec::new(alloc);
    if text != "-" {
        for part in text.split(',') {
            found.push(layout(alloc, part)?)?;
        }
    }
    Ok(List::from_vec(found))
}

/// A place: `2`, or `2.1` with an offset.
pub fn place(alloc: Global, text: &str) -> Result<Operand, AllocError> {
    let (slot, offset) = text.split_once('.').unwrap_or((text, "0"));
    let offset = layout(alloc, offset)?;
    Ok(Operand {
        slot: number(slot),
        offset,
    })
}

/// The places of a line behind its first word.
pub fn places(alloc: Global, line: &str) -> Result<List<Operand>, AllocError> {
    let mut found = Vec::new(alloc);
    for text in line.split_whitespace().skip(1) {
        found.push(place(alloc, text)?)?;
    }
    Ok(List::from_vec(found))
}

fn arg(alloc: Global, text: &str) -> Result<Arg, AllocError> {
    let (at, size) = text.split_once(':').unwrap_or((text, "1"));
    let layout = layout(alloc, size)?;
    let place = place(alloc, at)?;
    Ok(Arg { place, layout })
}

/// Arguments with commas between them, or `-` for none: `0:1,1.1:2`, a place and how many words.
pub fn args(alloc: Global, text: &str) -> Result<List<Arg>, AllocError> {
    let mut found = Vec::new(alloc);
    if text != "-" {
        for part in text.split(',') {
            found.push(arg(alloc, part)?)?;
        }
    }
    Ok(List::from_vec(found))
}
