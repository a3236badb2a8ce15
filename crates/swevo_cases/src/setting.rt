//! What a case is made of: words, files and sinks.

use crate::error::CaseError;
use crate::fields::{Section, field_of, read_section, section_of};
use crate::text::bytes_of;
use evo_base::{MemFiles, MemSink, Name};
use std::alloc::Global;

/// A case, with the head of its archive.
#[derive(Clone, Copy)]
pub struct Case<'a> {
    pub head: &'a str,
    pub text: &'a str,
}

impl<'a> Case<'a> {
    pub fn name(&self) -> &'a str {
        self.text.split('\n').next().unwrap_or("")
    }

    /// What a field says. Where the case does not have it, that of the head counts.
    pub fn field(&self, key: &str) -> Option<&'a str> {
        match field_of(self.text, key) {
            Some(value) => Some(value),
            None => field_of(self.head, key),
        }
    }

    // The text that another one repeats.
    fn repeated(&self, name: &str) -> Result<Section<'a>, CaseError> {
        let found = match section_of(self.text, name)? {
            Some(section) => Some(section),
            None => section_of(self.head, name)?,
        };
        match found {
            Some(section) if section.note.is_empty() => Ok(section),
            _ => Err(CaseError::Form("a text repeats none")),
        }
    }

    /// The bytes of a text.
    pub fn bytes(&self, alloc: Global, section: Section<'a>) -> Result<Vec<u8>, CaseError> {
        let source = match section.note.strip_prefix("as ") {
            Some(name) if section.body.is_empty() => self.repeated(name)?,
            None if section.note.is_empty() => section,
            _ => return Err(CaseError::Form("a note behind a name is none")),
        };
        let mut bytes = bytes_of(alloc, source.body)?;
        if source.ends {
            bytes.push(b'\n')?;
        }
        Ok(bytes)
    }
}

pub fn name_of(alloc: Global, text: &str) -> Result<Name, CaseError> {
    Ok(Name::from_vec(Vec::from_slice(alloc, text.as_bytes())?))
}

/// The words of a case.
pub fn words_of(alloc: Global, case: Case<'_>) -> Result<Vec<Name>, CaseError> {
    let Some(line) = case.field("words") else {
        return Err(CaseError::Form("it has no words"));
    };
    let bytes = bytes_of(alloc, line)?;
    let Ok(line) = str::from_utf8(&bytes) else {
        return Err(CaseError::Form("the words are no text"));
    };
    let mut words = Vec::new(alloc);
    for word in line.split(' ') {
        words.push(name_of(alloc, word)?)?;
    }
    Ok(words)
}

/// Whether the text of this name is that of a file.
pub fn is_file(name: &str) -> bool {
    !matches!(name, "out" | "err")
}

fn add_file(
    files: &mut MemFiles,
    alloc: Global,
    case: Case<'_>,
    part: &str,
) -> Result<(), CaseError> {
    let section = read_section(part)?;
    if is_file(section.name) {
        let bytes = case.bytes(alloc, section)?;
        files.add(name_of(alloc, section.name)?, bytes, 0)?;
    }
    Ok(())
}

fn add_files(
    files: &mut MemFiles,
    alloc: Global,
    case: Case<'_>,
    text: &str,
) -> Result<(), CaseError> {
    for part in text.split("\n-- ").skip(1) {
        add_file(files, alloc, case, part)?;
    }
    Ok(())
}

// The number of a call in an entry such as `out 2`, where it is one of these calls.
fn listed(entry: &str, calls: &str) -> Result<Option<u64>, CaseError> {
    match entry.split_once(' ') {
        Some((found @ ("files" | "out" | "err"), number)) => match number.parse::<u64>() {
            Ok(number) if found == calls => Ok(Some(number)),
            Ok(_) => Ok(None),
            Err(_) => Err(CaseError::Form("the number of a call that fails is none")),
        },
        _ => Err(CaseError::Form("what fails is none of files, out and err")),
    }
}

fn fail_files(files: &mut MemFiles, fails: &str) -> Result<(), CaseError> {
    for entry in fails.split(", ") {
        if let Some(number) = listed(entry, "files")? {
            files.fail(number)?;
        }
    }
    Ok(())
}

fn fail_sink(sink: &mut MemSink, fails: &str, calls: &str) -> Result<(), CaseError> {
    for entry in fails.split(", ") {
        if let Some(number) = listed(entry, calls)? {
            sink.fail(number)?;
        }
    }
    Ok(())
}

/// The files of a case: those of the head, and its own in their place.
pub fn files_of(alloc: Global, case: Case<'_>) -> Result<MemFiles, CaseError> {
    let mut files = MemFiles::new(alloc)?;
    add_files(&mut files, alloc, case, case.head)?;
    add_files(&mut files, alloc, case, case.text)?;
    if let Some(fails) = case.field("fails") {
        fail_files(&mut files, fails)?;
    }
    Ok(files)
}

// The room of a sink.
fn room_of(case: Case<'_>, calls: &str) -> Result<u64, CaseError> {
    match case.field("room") {
        Some(room) if calls == "out" => match room.parse::<u64>() {
            Ok(room) => Ok(room),
            Err(_) => Err(CaseError::Form("the room is no number")),
        },
        _ => Ok(65_536),
    }
}

/// The sink of a case that has this name.
pub fn sink_of(alloc: Global, case: Case<'_>, calls: &str) -> Result<MemSink, CaseError> {
    let mut sink = MemSink::new(alloc, room_of(case, calls)?)?;
    if let Some(fails) = case.field("fails") {
        fail_sink(&mut sink, fails, calls)?;
    }
    Ok(sink)
}
