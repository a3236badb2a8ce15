//! Marks of keys.

ghost use Rattle.std.specs.Prelude.{◌≡◌, ◌∷◌, ◌++◌, [], IfOk};
ghost use Rattle.evo_keys.specs.Marks as spec;
ghost use Rattle.evo_names.specs.Bodies as bodies;
ghost use Rattle.evo_names.specs.Keys as keys;

use evo_base::{Key, List, Mark, Name, Part, ProtocolName};
use evo_resolved::BodyPart;
use std::alloc::{AllocError, Global};

/// The marks of what a declaration itself is: that it is a requirement, and that it stands for an override.
pub(crate) fn own_part(
    alloc: Global,
    requirement: bool,
    overriding: bool,
) -> Result<Part, AllocError>
    ensures { IfOk result (λ part. part.marks ≡ spec.own_marks requirement overriding) }
{
    let mut marks = Vec::new(alloc);
    if requirement {
        marks.push(Mark::Requirement)?;
    }
    if overriding {
        marks.push(Mark::Override)?;
    }
    Ok(Part {
        marks: List::from_vec(marks),
    })
}

fn lone(alloc: Global, mark: Mark) -> Result<Part, AllocError>
    ensures { IfOk result (λ part. part.marks ≡ mark ∷ []) }
{
    let mut marks = Vec::new(alloc);
    marks.push(mark)?;
    Ok(Part {
        marks: List::from_vec(marks),
    })
}

fn getter_part(alloc: Global, part: &Part) -> Result<Part, AllocError>
    ensures { IfOk result (λ made. made.marks ≡ bodies.getter_marks part.now.marks) }
{
    if part.marks.as_slice().is_empty() {
        return lone(alloc, Mark::Get);
    }
    lone(alloc, Mark::RequirementGet)
}

fn setter_part(alloc: Global, part: &Part) -> Result<Part, AllocError>
    ensures { IfOk result (λ made. made.marks ≡ bodies.setter_marks part.now.marks) }
{
    if part.marks.as_slice().is_empty() {
        return lone(alloc, Mark::Set);
    }
    lone(alloc, Mark::RequirementSet)
}

fn with_part(key: Key, part: Part) -> Key
    ensures { result ≡ record key { part = part } }
{
    let Key {
        module,
        context,
        base,
        labels,
        part: _,
    } = key;
    Key {
        module,
        context,
        base,
        labels,
        part,
    }
}

/// The key of a part of a declaration: of its getter, of its setter, or its own.
pub fn part_key(alloc: Global, part: BodyPart, key: Key) -> Result<Key, AllocError>
    ensures { IfOk result (λ made. made ≡ bodies.part_key part key) }
{
    match part {
        BodyPart::Whole => Ok(key),
        BodyPart::Getter => {
            let marks = getter_part(alloc, &key.part)?;
            Ok(with_part(key, marks))
        }
        BodyPart::Setter => {
            let marks = setter_part(alloc, &key.part)?;
            Ok(with_part(key, marks))
        }
    }
}

fn marked(key: Key, mark: Mark) -> Result<Key, AllocError>
    ensures { IfOk result (λ made. made ≡ keys.behind key mark) }
{
    let Key {
        module,
        context,
        base,
        labels,
        part,
    } = key;
    let mut marks = part.marks.into_vec();
    marks.push(mark)?;
    Ok(Key {
        module,
        context,
        base,
        labels,
        part: Part {
            marks: List::from_vec(marks),
        },
    })
}

/// The key of what stands for a getter.
pub fn getter_key(key: Key) -> Result<Key, AllocError>
    ensures { IfOk result (λ made. made ≡ keys.getter_key key) }
{
    marked(key, Mark::Get)
}

/// The key of what stands for a setter.
pub fn setter_key(key: Key) -> Result<Key, AllocError>
    ensures { IfOk result (λ made. made ≡ keys.setter_key key) }
{
    marked(key, Mark::Set)
}

fn protocol_name(alloc: Global, protocol: &Key) -> Result<ProtocolName, AllocError>
    ensures { IfOk result (λ name. name ≡ keys.protocol_name protocol.now) }
{
    Ok(ProtocolName {
        module: protocol.module.copy(alloc)?,
        name: protocol.base.copy(alloc)?,
    })
}

/// The key of the conformance of a type to a protocol that a module declares.
pub fn conformance_key(
    alloc: Global,
    module: &Name,
    conforming: &Key,
    protocol: &Key,
) -> Result<Key, AllocError>
    ensures { IfOk result (λ made. made ≡ keys.conformance_key «module».now conforming.now protocol.now) }
{
    let part = lone(alloc, Mark::Conformance(protocol_name(alloc, protocol)?))?;
    let labels = match &conforming.labels {
        Some(labels) => Some(labels.copy(alloc)?),
        None => None,
    };
    Ok(Key {
        module: module.copy(alloc)?,
        context: conforming.context.copy(alloc)?,
        base: conforming.base.copy(alloc)?,
        labels,
        part,
    })
}
