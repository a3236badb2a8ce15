//! What the reader and the printer of modules answer.

use crate::outline::outline;
use evo_base::Name;
use evo_heading::heading;
use evo_parse::{TextFault, read_module};
use evo_print::print;
use evo_tree::{Form, Module, SourceFault};
use evo_tree_ops::{Copied, same, same_tree};
use std::alloc::{AllocError, Global};

// The first two lines of an interface.
const LINES: &str = "// swift-interface-format-version: 1.0\n// swevo-module: Lib 1.0\n";

type Answer = Result<Module, TextFault>;

// What is asked of the reader is left out of these three, since nothing more is said of what they answer.
fn library(alloc: Global, text: &[u8]) -> Result<Answer, AllocError> {
    if text.len() > 100_000 {
        return Ok(Err(TextFault::Memory));
    }
    let name = Name::from_vec(Vec::from_slice(alloc, b"Lib")?);
    Ok(read_module(alloc, text, Form::Library(name)))
}

fn client(alloc: Global, text: &[u8]) -> Result<Answer, AllocError> {
    if text.len() > 100_000 {
        return Ok(Err(TextFault::Memory));
    }
    Ok(read_module(alloc, text, Form::Client))
}

fn interface(alloc: Global, text: &[u8]) -> Result<Answer, AllocError> {
    if text.len() > 100_000 {
        return Ok(Err(TextFault::Memory));
    }
    let Some(_) = heading(alloc, text)? else {
        return Ok(Err(TextFault::Memory));
    };
    Ok(read_module(alloc, text, Form::Interface))
}

// What a text is in a form: a library, a client, an interface without its two lines, or one with them.
fn read(alloc: Global, form: &str, text: &str) -> Result<Answer, AllocError> {
    match form {
        "L" => library(alloc, text.as_bytes()),
        "C" => client(alloc, text.as_bytes()),
        "H" => interface(alloc, text.as_bytes()),
        _ => {
            let whole = format!(in alloc; "{LINES}{text}")?;
            interface(alloc, whole.as_bytes())
        }
    }
}

// What is printed is left out of this, since nothing more is said of it here.
fn text_of(alloc: Global, module: &Module) -> Result<String, AllocError> {
    let bytes = print(alloc, module)?;
    let text = str::from_utf8(&bytes).unwrap_or("no text");
    String::from_str(alloc, text)
}

// What a module is that was read of another one's text.
fn told_again(
    alloc: Global,
    module: &Module,
    again: &Module,
    text: &str,
) -> Result<&'static str, AllocError> {
    if !same(module, again) {
        return Ok("; another module is read of its text");
    }
    let printed = text_of(alloc, again)?;
    if printed.as_str() == text {
        Ok("")
    } else {
        Ok("; another text is printed of its text")
    }
}

// What is wrong with the text that is printed of a module, where anything is.
fn trip(
    alloc: Global,
    form: &str,
    module: &Module,
    text: &str,
) -> Result<&'static str, AllocError> {
    let form = if form == "I" { "H" } else { form };
    match read(alloc, form, text)? {
        Ok(again) => told_again(alloc, module, &again, text),
        Err(_) => Ok("; its text is not read"),
    }
}

fn refused(alloc: Global, fault: SourceFault) -> Result<String, AllocError> {
    let place = fault.place;
    format!(in alloc; "{}:{}: {}", place.line, place.col, fault.kind.text())
}

// The module's outline, its text, or its name and release.
fn shown(
    alloc: Global,
    what: &str,
    form: &str,
    module: &Module,
    text: &str,
) -> Result<String, AllocError> {
    match what {
        "outline" => outline(alloc, module),
        "title" => title(alloc, module),
        "text" if form == "I" => {
            let text = text.strip_prefix(LINES).unwrap_or("no lines");
            String::from_str(alloc, text)
        }
        "text" => String::from_str(alloc, text),
        _ => String::from_str(alloc, "the same"),
    }
}

fn title(alloc: Global, module: &Module) -> Result<String, AllocError> {
    let tree = module.tree();
    let name = str::from_utf8(tree.name.as_slice()).unwrap_or("");
    match tree.release {
        Some(release) => format!(in alloc; "{name} {}.{}", release.major, release.minor),
        None => String::from_str(alloc, name),
    }
}

fn told(alloc: Global, what: &str, form: &str, module: &Module) -> Result<String, AllocError> {
    let text = text_of(alloc, module)?;
    let mut told = shown(alloc, what, form, module, text.as_str())?;
    told.push_str(trip(alloc, form, module, text.as_str())?)?;
    Ok(told)
}

/// What is read of a text in a form: where it is refused, or what is asked for of its module. Where the module's
/// printed text is not read again as the same module, with the same text, that is told too.
pub fn answer(alloc: Global, what: &str, form: &str, text: &str) -> Result<String, AllocError> {
    match read(alloc, form, text)? {
        Ok(module) => told(alloc, what, form, &module),
        Err(TextFault::Refused(fault)) => refused(alloc, fault),
        Err(TextFault::Memory) => String::from_str(alloc, "not read"),
    }
}

// What is said of a module's copy and another module.
fn compared(alloc: Global, first: &Module, second: &Module) -> Result<&'static str, AllocError> {
    let copy = first.tree().copy(alloc)?;
    if !same_tree(&copy, first.tree()) {
        return Ok("not copied");
    }
    Ok(if same_tree(&copy, second.tree()) {
        "same"
    } else {
        "other"
    })
}

/// Whether two texts are clients that are the same but for places.
pub fn verdict(alloc: Global, first: &str, second: &str) -> Result<&'static str, AllocError> {
    let Ok(first) = read(alloc, "C", first)? else {
        return Ok("not read");
    };
    match read(alloc, "C", second)? {
        Ok(second) => compared(alloc, &first, &second),
        Err(_) => Ok("not read"),
    }
}
