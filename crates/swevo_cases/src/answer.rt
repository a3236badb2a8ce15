//! Whether what comes of a case is what it says.

use crate::error::CaseError;
use crate::fields::{check_form, read_section, section_of};
use crate::setting::{Case, files_of, is_file, name_of, sink_of, words_of};
use crate::text::bytes_of;
use evo_base::{Files, MemFiles, MemSink, Name, Sink};
use evo_driver::{Status, swevo};
use evo_execution::End;
use evo_runs::Machine;
use std::alloc::Global;

/// The top call, with the machine that it leaves. What it promises is left out here, since nothing more is said of it.
pub fn run<F: Files, O: Sink, E: Sink>(
    alloc: Global,
    words: &[Name],
    files: &mut F,
    out: &mut O,
    err: &mut E,
) -> (Status, Option<Machine>) {
    let mut bench = None;
    let status = swevo(alloc, words, files, out, err, &mut bench);
    (status, bench)
}

// Whether a machine is left as the status says.
fn is_left(status: Status, bench: &Option<Machine>) -> bool {
    let Some(machine) = bench else {
        return !matches!(status, Status::Done | Status::OutOfTicks);
    };
    match status {
        Status::Done => machine.end() == Some(End::Done),
        Status::OutOfTicks => machine.end() == Some(End::Budget),
        _ => false,
    }
}

fn push_bytes(report: &mut String, bytes: &[u8]) -> Result<(), CaseError> {
    match str::from_utf8(bytes) {
        Ok(text) => report.push_str(text)?,
        Err(_) => report.push_str("no text")?,
    }
    Ok(())
}

// Reports what differs.
fn differs(
    report: &mut String,
    case: Case<'_>,
    what: &str,
    expected: &[u8],
    found: &[u8],
) -> Result<(), CaseError> {
    let name = case.name();
    report.push_str(name)?;
    report.push_str(": ")?;
    report.push_str(what)?;
    report.push_str(":\nexpected: ")?;
    push_bytes(report, expected)?;
    report.push_str("\ngot:      ")?;
    push_bytes(report, found)?;
    report.push_str("\n")?;
    Ok(())
}

fn same(
    report: &mut String,
    case: Case<'_>,
    what: &str,
    expected: &[u8],
    found: &[u8],
) -> Result<bool, CaseError> {
    if expected == found {
        return Ok(true);
    }
    differs(report, case, what, expected, found)?;
    Ok(false)
}

fn same_status(
    report: &mut String,
    alloc: Global,
    case: Case<'_>,
    status: Status,
) -> Result<bool, CaseError> {
    let Some(expected) = case.field("status") else {
        return Err(CaseError::Form("it has no status"));
    };
    let found = format!(in alloc; "{}", status.code())?;
    same(
        report,
        case,
        "status",
        expected.as_bytes(),
        found.as_bytes(),
    )
}

// Whether bytes are a line of a text, with its line feed.
fn is_one_of(alloc: Global, lines: &str, found: &[u8]) -> Result<bool, CaseError> {
    for line in lines.split('\n') {
        let mut line = bytes_of(alloc, line)?;
        line.push(b'\n')?;
        if line.as_slice() == found {
            return Ok(true);
        }
    }
    Ok(false)
}

// Compares what was written to a sink with the text of this name.
fn same_text(
    report: &mut String,
    alloc: Global,
    case: Case<'_>,
    name: &str,
    found: &[u8],
) -> Result<bool, CaseError> {
    let Some(section) = section_of(case.text, name)? else {
        return same(report, case, name, b"", found);
    };
    if section.note == "one of these" {
        if is_one_of(alloc, section.body, found)? {
            return Ok(true);
        }
        return same(report, case, name, section.body.as_bytes(), found);
    }
    let expected = case.bytes(alloc, section)?;
    same(report, case, name, expected.as_slice(), found)
}

// Whether each file of a case or a head that is not in another text holds what it held.
fn same_files(
    report: &mut String,
    alloc: Global,
    case: Case<'_>,
    files: &MemFiles,
) -> Result<bool, CaseError> {
    for part in case.text.split("\n-- ").skip(1) {
        if !same_file(report, alloc, case, files, part)? {
            return Ok(false);
        }
    }
    Ok(true)
}

fn same_file(
    report: &mut String,
    alloc: Global,
    case: Case<'_>,
    files: &MemFiles,
    part: &str,
) -> Result<bool, CaseError> {
    let section = read_section(part)?;
    if !is_file(section.name) {
        return Ok(true);
    }
    let expected = case.bytes(alloc, section)?;
    let name = name_of(alloc, section.name)?;
    match files.bytes(&name) {
        Some(found) => same(report, case, section.name, expected.as_slice(), found),
        None => same(report, case, section.name, expected.as_slice(), b"no file"),
    }
}

// What came of a case: the status, what is on the sinks, and the files.
#[derive(Clone, Copy)]
struct Outcome<'a> {
    status: Status,
    is_left: bool,
    out: &'a [u8],
    err: &'a [u8],
    files: &'a MemFiles,
}

// Compares what came of a case with what it says.
fn compared(
    report: &mut String,
    alloc: Global,
    case: Case<'_>,
    outcome: &Outcome<'_>,
) -> Result<bool, CaseError> {
    let machine = if outcome.is_left {
        ""
    } else {
        "not that of the status"
    };
    let status = same_status(report, alloc, case, outcome.status)?;
    let left = same(report, case, "machine", b"", machine.as_bytes())?;
    let out = same_text(report, alloc, case, "out", outcome.out)?;
    let err = same_text(report, alloc, case, "err", outcome.err)?;
    let files = same_files(report, alloc, case, outcome.files)?;
    Ok(status && left && out && err && files)
}

// Makes the call, and compares. Nothing is owned here, so that little is said at each step.
fn called(
    report: &mut String,
    alloc: Global,
    case: Case<'_>,
    words: &[Name],
    files: &mut MemFiles,
    (out, err): (&mut MemSink, &mut MemSink),
) -> Result<bool, CaseError> {
    let (status, bench) = run(alloc, words, files, out, err);
    let outcome = Outcome {
        status,
        is_left: is_left(status, &bench),
        out: out.bytes(),
        err: err.bytes(),
        files,
    };
    compared(report, alloc, case, &outcome)
}

fn with_sinks(
    report: &mut String,
    alloc: Global,
    case: Case<'_>,
    words: &[Name],
    files: &mut MemFiles,
) -> Result<bool, CaseError> {
    let mut out = sink_of(alloc, case, "out")?;
    let mut err = sink_of(alloc, case, "err")?;
    called(report, alloc, case, words, files, (&mut out, &mut err))
}

fn with_files(
    report: &mut String,
    alloc: Global,
    case: Case<'_>,
    words: &[Name],
) -> Result<bool, CaseError> {
    let mut files = files_of(alloc, case)?;
    with_sinks(report, alloc, case, words, &mut files)
}

/// Whether what comes of a case is what it says. What differs is reported.
pub fn agrees(alloc: Global, case: Case<'_>, report: &mut String) -> Result<bool, CaseError> {
    check_form(case.text)?;
    let words = words_of(alloc, case)?;
    with_files(report, alloc, case, &words)
}
