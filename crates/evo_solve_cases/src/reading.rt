//! Signatures and declarations as they are written in the table.

use evo_base::{Key, List, Name, Part, Place};
use evo_resolved::{RReference, RRequirement, RType, RTypeName, Signature};
use evo_solve::{Declarations, DeclaredConformance, Protocol, Subtable};
use std::alloc::{AllocError, Global};

/// What the rows above have set.
#[derive(Drop)]
pub struct Setting {
    pub requirements: String,
    pub own: String,
    pub protocols: String,
    pub conformances: String,
}

impl Setting {
    /// Nothing is set.
    pub fn new(alloc: Global) -> Setting {
        Setting {
            requirements: String::new(alloc),
            own: String::new(alloc),
            protocols: String::new(alloc),
            conformances: String::new(alloc),
        }
    }
}

fn replace(text: &mut String, with: &str) -> Result<(), AllocError> {
    text.clear();
    text.push_str(with)
}

/// Takes a row that sets something.
pub fn set(_alloc: Global, setting: &mut Setting, row: &str) -> Result<(), AllocError> {
    let (word, rest) = row.split_once(' ').unwrap_or((row, ""));
    match word {
        "where" => replace(&mut setting.requirements, rest),
        "in" => replace(&mut setting.own, rest),
        "protocols" => replace(&mut setting.protocols, rest),
        "conformances" => replace(&mut setting.conformances, rest),
        _ => Ok(()),
    }
}

fn name(alloc: Global, text: &str) -> Result<Name, AllocError> {
    Ok(Name::from_vec(Vec::from_slice(alloc, text.as_bytes())?))
}

fn names(alloc: Global, texts: &str) -> Result<List<Name>, AllocError> {
    let mut found = Vec::new(alloc);
    for text in texts.split('.') {
        found.push(name(alloc, text)?)?;
    }
    Ok(List::from_vec(found))
}

fn context(alloc: Global) -> Result<List<Name>, AllocError> {
    let mut names = Vec::new(alloc);
    names.push(name(alloc, "Lib")?)?;
    Ok(List::from_vec(names))
}

/// The key of a type or protocol of the library, or of a subtable by its text.
pub fn key(alloc: Global, text: &str) -> Result<Key, AllocError> {
    let module = name(alloc, "Lib")?;
    let context = context(alloc)?;
    let base = name(alloc, text)?;
    let marks = List::from_vec(Vec::new(alloc));
    Ok(Key {
        module,
        context,
        base,
        labels: None,
        part: Part { marks },
    })
}

fn parameter(text: &str) -> Option<u32> {
    match text {
        "T" => Some(0),
        "U" => Some(1),
        "V" => Some(2),
        "W" => Some(3),
        _ => None,
    }
}

/// A type: `T`, `T.A.B`, or another name.
pub fn type_of(alloc: Global, text: &str) -> Result<RType, AllocError> {
    let (first, rest) = text.split_once('.').unwrap_or((text, ""));
    let Some(number) = parameter(first) else {
        return Ok(RType::Named(key(alloc, text)?));
    };
    if rest.is_empty() {
        return Ok(RType::Param(number));
    }
    Ok(RType::Assoc(number, names(alloc, rest)?))
}

fn written(alloc: Global, text: &str) -> Result<RTypeName, AllocError> {
    let place = Place { line: 1, col: 1 };
    let aliases = List::from_vec(Vec::new(alloc));
    let ty = type_of(alloc, text)?;
    Ok(RTypeName { place, aliases, ty })
}

fn requirement(alloc: Global, text: &str) -> Result<RRequirement, AllocError> {
    let place = Place { line: 1, col: 1 };
    if let Some((left, right)) = text.split_once("==") {
        let left = written(alloc, left)?;
        return Ok(RRequirement::Same(left, place, written(alloc, right)?));
    }
    let (subject, protocol) = text.split_once(':').unwrap_or((text, ""));
    let subject = written(alloc, subject)?;
    let key = key(alloc, protocol)?;
    Ok(RRequirement::Conforms(subject, RReference { place, key }))
}

fn requirements(alloc: Global, text: &str) -> Result<List<RRequirement>, AllocError> {
    let mut found = Vec::new(alloc);
    for word in text.split_whitespace() {
        found.push(requirement(alloc, word)?)?;
    }
    Ok(List::from_vec(found))
}

/// The signature that is set.
pub fn signature(alloc: Global, setting: &Setting) -> Result<Signature, AllocError> {
    let requirements = requirements(alloc, setting.requirements.as_str())?;
    let generics = List::from_vec(Vec::new(alloc));
    let own = setting.own.as_str();
    let protocol = if own.is_empty() {
        None
    } else {
        Some(key(alloc, own)?)
    };
    Ok(Signature {
        protocol,
        generics,
        requirements,
    })
}

// The number of a protocol among those that are set.
fn number(protocols: &str, sought: &str) -> usize {
    let mut number = 0;
    for protocol in protocols.split(';') {
        let own = protocol.split_whitespace().next().unwrap_or("");
        if own == sought {
            return number;
        }
        if number < 1000 {
            number += 1;
        }
    }
    number
}

fn subtable(alloc: Global, protocols: &str, text: &str) -> Result<Subtable, AllocError> {
    let Some((associated, protocol)) = text.split_once(':') else {
        let protocol = number(protocols, text);
        let name = key(alloc, text)?;
        return Ok(Subtable {
            name,
            associated: None,
            protocol,
        });
    };
    let associated = Some(name(alloc, associated)?);
    let protocol = number(protocols, protocol);
    let name = key(alloc, text)?;
    Ok(Subtable {
        name,
        associated,
        protocol,
    })
}

fn subtables(alloc: Global, protocols: &str, texts: &str) -> Result<List<Subtable>, AllocError> {
    let mut found = Vec::new(alloc);
    for text in texts.split_whitespace() {
        found.push(subtable(alloc, protocols, text)?)?;
    }
    Ok(List::from_vec(found))
}

fn protocols(alloc: Global, text: &str) -> Result<List<Protocol>, AllocError> {
    let mut found = Vec::new(alloc);
    for protocol in text.split(';') {
        let protocol = protocol.trim();
        let (own, rest) = protocol.split_once(' ').unwrap_or((protocol, ""));
        let key = key(alloc, own)?;
        let subtables = subtables(alloc, text, rest)?;
        found.push(Protocol { key, subtables })?;
    }
    Ok(List::from_vec(found))
}

fn conformance(alloc: Global, text: &str) -> Result<DeclaredConformance, AllocError> {
    let (conformer, protocol) = text.split_once(':').unwrap_or((text, ""));
    let conformer = type_of(alloc, conformer)?;
    let protocol = key(alloc, protocol)?;
    let key = key(alloc, text)?;
    Ok(DeclaredConformance {
        key,
        conformer,
        protocol,
    })
}

/// The declarations that are set.
pub fn declarations(alloc: Global, setting: &Setting) -> Result<Declarations, AllocError> {
    let protocols = protocols(alloc, setting.protocols.as_str())?;
    let mut found = Vec::new(alloc);
    for text in setting.conformances.as_str().split_whitespace() {
        found.push(conformance(alloc, text)?)?;
    }
    let conformances = List::from_vec(found);
    Ok(Declarations {
        protocols,
        conformances,
    })
}
