//! The examples of the README, whose files lie beside the archives.

use crate::count::Count;
use std::alloc::{AllocError, Global};
use std::{fs, rt};

// The files that the README's commands name.
const NAMES: &str = "examples/first/old.swift examples/first/new.swift examples/first/main.swift \
    examples/inlinable/old.swift examples/inlinable/new.swift examples/inlinable/main.swift \
    examples/removed/old.swift examples/removed/new.swift examples/removed/main.swift";

// Whether the archive has the text of this file under its name, and another text behind it.
fn is_shown<R: rt::Runtime<A = Global>>(
    system: &R,
    archive: &str,
    name: &str,
) -> Result<bool, AllocError> {
    let Ok(text) = fs::read_to_string(system, name) else {
        return Ok(false);
    };
    let shown = format!(in system.alloc(); "-- {name} --\n{text}-- ")?;
    Ok(archive.contains(shown.as_str()))
}

/// Tries that the archive of the examples has each of their files as it lies here.
pub fn try_examples<R: rt::Runtime<A = Global>>(
    system: &R,
    report: &mut String,
    count: &mut Count,
) -> Result<(), AllocError> {
    let Ok(archive) = fs::read_to_string(system, "examples.txt") else {
        return count.unreadable(report, "examples.txt", "it cannot be read");
    };
    for name in NAMES.split_ascii_whitespace() {
        count.case(is_shown(system, archive.as_str(), name)?);
    }
    Ok(())
}
