//! Copies of keys.

use crate::disk::name;
use crate::report::Report;
use evo_base::{Key, List, Mark, Name, Part, ProtocolName};
use std::alloc::{AllocError, Global};

fn names(alloc: Global, line: &str) -> Result<List<Name>, AllocError> {
    let mut names = Vec::new(alloc);
    for word in line.split(' ') {
        names.push(name(alloc, word)?)?;
    }
    Ok(List::from_vec(names))
}

fn protocol(alloc: Global, text: &str) -> Result<ProtocolName, AllocError> {
    Ok(ProtocolName {
        module: name(alloc, "Lib")?,
        name: name(alloc, text)?,
    })
}

// A mark of each shape.
fn marks(alloc: Global) -> Result<List<Mark>, AllocError> {
    let conformance = Mark::Conformance(protocol(alloc, "P")?);
    let inherited = Mark::Inherited(protocol(alloc, "Q")?);
    let associated = Mark::Associated(protocol(alloc, "R")?);
    let thunk = Mark::Thunk(name(alloc, "Lib.P.f")?);
    let marks = vec![in alloc; Mark::Get, conformance, inherited, associated, thunk]?;
    Ok(List::from_vec(marks))
}

fn key(alloc: Global, labels: Option<List<Name>>) -> Result<Key, AllocError> {
    Ok(Key {
        module: name(alloc, "Lib")?,
        context: names(alloc, "Outer Inner")?,
        base: name(alloc, "f")?,
        labels,
        part: Part {
            marks: marks(alloc)?,
        },
    })
}

fn same_names(one: &List<Name>, other: &List<Name>) -> bool {
    let (one, other) = (one.as_slice(), other.as_slice());
    one.len() == other.len()
        && one
            .iter()
            .zip(other)
            .all(|(x, y)| x.as_slice() == y.as_slice())
}

fn same_protocol(one: &ProtocolName, other: &ProtocolName) -> bool {
    one.module.as_slice() == other.module.as_slice() && one.name.as_slice() == other.name.as_slice()
}

// Whether two marks are one, of the shapes that are tried here.
fn same_mark(one: &Mark, other: &Mark) -> bool {
    match (one, other) {
        (Mark::Get, Mark::Get) => true,
        (Mark::Conformance(x), Mark::Conformance(y)) => same_protocol(x, y),
        (Mark::Inherited(x), Mark::Inherited(y)) => same_protocol(x, y),
        (Mark::Associated(x), Mark::Associated(y)) => same_protocol(x, y),
        (Mark::Thunk(x), Mark::Thunk(y)) => x.as_slice() == y.as_slice(),
        _ => false,
    }
}

fn same_marks(one: &List<Mark>, other: &List<Mark>) -> bool {
    let (one, other) = (one.as_slice(), other.as_slice());
    one.len() == other.len() && one.iter().zip(other).all(|(x, y)| same_mark(x, y))
}

fn same_labels(one: &Option<List<Name>>, other: &Option<List<Name>>) -> bool {
    match (one, other) {
        (Some(x), Some(y)) => same_names(x, y),
        (None, None) => true,
        _ => false,
    }
}

fn same_key(one: &Key, other: &Key) -> bool {
    one.module.as_slice() == other.module.as_slice()
        && same_names(&one.context, &other.context)
        && one.base.as_slice() == other.base.as_slice()
        && same_labels(&one.labels, &other.labels)
        && same_marks(&one.part.marks, &other.part.marks)
}

// Whether a copy of a key has its names and marks.
fn is_copied(alloc: Global, key: &Key) -> Result<bool, AllocError> {
    let copy = key.copy(alloc)?;
    Ok(
        same_key(&copy, key)
            && copy.base.as_slice() == b"f".as_slice()
            && copy.part.marks.as_slice().len() == 5,
    )
}

/// A key with labels, and one without.
pub fn try_copies(alloc: Global, report: &mut Report) -> Result<(), AllocError> {
    let without = key(alloc, None)?;
    report.tell("a key without labels", is_copied(alloc, &without)?)?;
    let labels = names(alloc, "x _")?;
    let with = key(alloc, Some(labels))?;
    report.tell("a key with labels", is_copied(alloc, &with)?)
}
