//! The parts of a case: its fields, and its texts.

use crate::error::CaseError;

const NO_LINE_FEED: &str = " (no line feed at its end)";

/// A text of an archive.
#[derive(Clone, Copy)]
pub struct Section<'a> {
    pub name: &'a str,
    /// What stands behind the colon of its heading, where there is one.
    pub note: &'a str,
    pub body: &'a str,
    /// Whether a line feed stands behind the body.
    pub ends: bool,
}

fn heading(line: &str) -> Result<(&str, &str), CaseError> {
    match line.split_once(" --") {
        Some((title, "")) => Ok((title, "")),
        Some((title, NO_LINE_FEED)) => Ok((title, NO_LINE_FEED)),
        _ => Err(CaseError::Form("a text has no heading")),
    }
}

/// A text, from behind the first dashes of its heading on.
pub fn read_section(part: &str) -> Result<Section<'_>, CaseError> {
    let (line, body, has_body) = match part.split_once('\n') {
        Some((line, body)) => (line, body, true),
        None => (part, "", false),
    };
    let (title, end) = heading(line)?;
    let (name, note) = title.split_once(": ").unwrap_or((title, ""));
    Ok(Section {
        name,
        note,
        body,
        ends: has_body && end.is_empty(),
    })
}

/// The text with a name, among those of a case or a head.
pub fn section_of<'a>(text: &'a str, name: &str) -> Result<Option<Section<'a>>, CaseError> {
    for part in text.split("\n-- ").skip(1) {
        let section = read_section(part)?;
        if section.name == name {
            return Ok(Some(section));
        }
    }
    Ok(None)
}

/// What a field of a case or a head says.
pub fn field_of<'a>(text: &'a str, key: &str) -> Option<&'a str> {
    let lines = text.split("\n-- ").next()?;
    for line in lines.split('\n') {
        if let Some((found, value)) = line.split_once(": ")
            && found == key
        {
            return Some(value);
        }
    }
    None
}

fn is_field(line: &str) -> bool {
    match line.split_once(": ") {
        Some((key, _)) => matches!(key, "words" | "status" | "fails" | "room"),
        None => line.is_empty(),
    }
}

// How many texts of a case have this name.
fn count_of(text: &str, name: &str) -> Result<u64, CaseError> {
    let mut count = 0u64;
    for part in text.split("\n-- ").skip(1) {
        if read_section(part)?.name == name {
            count = count.saturating_add(1);
        }
    }
    Ok(count)
}

fn check_lines(lines: &str) -> Result<(), CaseError> {
    for line in lines.split('\n').skip(1) {
        if !is_field(line) && !line.starts_with('#') {
            return Err(CaseError::Form("a line is no field"));
        }
    }
    Ok(())
}

/// Refuses a case or a head that is not written as one.
pub fn check_form(text: &str) -> Result<(), CaseError> {
    if text.contains("\n=== ") {
        return Err(CaseError::Form("no empty line stands before a case"));
    }
    let lines = text.split("\n-- ").next().unwrap_or("");
    check_lines(lines)?;
    for part in text.split("\n-- ").skip(1) {
        let name = read_section(part)?.name;
        if count_of(text, name)? != 1 {
            return Err(CaseError::Form("a text is there twice"));
        }
    }
    Ok(())
}
