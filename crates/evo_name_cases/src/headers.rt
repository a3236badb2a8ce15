//! What is told of the headers of a text.

use crate::texts::expanded;
use evo_base::Name;
use evo_declarations::{Listing, Names, World};
use evo_name_faults::header_fault;
use evo_parse::{TextFault, read_module};
use evo_tree::{Form, Module, SourceFault};
use std::alloc::{AllocError, Global};

type Answer = Result<Module, TextFault>;

// What is asked of the reader is left out of these two, since nothing more is said of what they answer.
fn library(alloc: Global, text: &[u8]) -> Result<Answer, AllocError> {
    if text.len() > 1_000_000 {
        return Ok(Err(TextFault::Memory));
    }
    let name = Name::from_vec(Vec::from_slice(alloc, b"Lib")?);
    Ok(read_module(alloc, text, Form::Library(name)))
}

fn client(alloc: Global, text: &[u8]) -> Result<Answer, AllocError> {
    if text.len() > 1_000_000 {
        return Ok(Err(TextFault::Memory));
    }
    Ok(read_module(alloc, text, Form::Client))
}

fn fault_text(alloc: Global, fault: &SourceFault) -> Result<String, AllocError> {
    let text = fault.kind.text();
    format!(in alloc; "{}:{}: {text}", fault.place.line, fault.place.col)
}

fn unread_text(alloc: Global, fault: &TextFault) -> Result<String, AllocError> {
    match fault {
        TextFault::Refused(fault) => fault_text(alloc, fault),
        TextFault::Memory => String::from_str(alloc, "no memory"),
    }
}

// The call without its clauses, which would stand in each goal behind it.
fn told(alloc: Global, world: World<'_>) -> Result<Option<SourceFault>, AllocError> {
    header_fault(alloc, world)
}

fn world_text(alloc: Global, world: World<'_>) -> Result<String, AllocError> {
    match told(alloc, world)? {
        Some(fault) => fault_text(alloc, &fault),
        None => String::from_str(alloc, "none"),
    }
}

fn names_of<'a>(alloc: Global, module: &'a Module) -> Result<Names<'a>, AllocError> {
    let listing = Listing::of(alloc, module.tree())?;
    Names::of(alloc, listing)
}

fn text_of(
    alloc: Global,
    imported: Option<&Names<'_>>,
    own: &Module,
) -> Result<String, AllocError> {
    let own = names_of(alloc, own)?;
    world_text(
        alloc,
        World {
            own: &own,
            imported,
        },
    )
}

fn with_library(alloc: Global, imported: &Module, text: &str) -> Result<String, AllocError> {
    let imported = names_of(alloc, imported)?;
    match client(alloc, text.as_bytes())? {
        Ok(own) => text_of(alloc, Some(&imported), &own),
        Err(fault) => unread_text(alloc, &fault),
    }
}

fn of_client(alloc: Global, library_text: &str, text: &str) -> Result<String, AllocError> {
    match library(alloc, library_text.as_bytes())? {
        Ok(imported) => with_library(alloc, &imported, text),
        Err(fault) => unread_text(alloc, &fault),
    }
}

fn of_library(alloc: Global, text: &str) -> Result<String, AllocError> {
    match library(alloc, text.as_bytes())? {
        Ok(own) => text_of(alloc, None, &own),
        Err(fault) => unread_text(alloc, &fault),
    }
}

/// What is told of a library, or of a client behind the library that it imports.
pub fn found(alloc: Global, text: &str) -> Result<String, AllocError> {
    let text = expanded(alloc, text)?;
    match text.as_str().split_once("--\n") {
        Some((imported, own)) => of_client(alloc, imported, own),
        None => of_library(alloc, text.as_str()),
    }
}
