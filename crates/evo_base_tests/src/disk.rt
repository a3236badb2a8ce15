//! Files of the system.

use crate::report::Report;
use evo_base::{DiskFiles, Files, GetFault, Name};
use std::alloc::{AllocError, Global};
use std::{fs, rt};

const FILE: &str = "evo_base_tests_file";

/// A name of this text.
pub fn name(alloc: Global, text: &str) -> Result<Name, AllocError> {
    Ok(Name::from_vec(Vec::from_slice(alloc, text.as_bytes())?))
}

// Whether the front of a file, up to one byte more than a limit, is this.
fn is_front<F: Files>(
    alloc: Global,
    files: &mut F,
    at: &Name,
    limit: u32,
    expected: &[u8],
) -> bool {
    match files.get(alloc, at, u64::from(limit)) {
        Ok(bytes) => bytes.as_slice() == expected,
        Err(_) => false,
    }
}

// Puts a text in the place of a longer one, and reads fronts of it.
fn fronts<F: Files>(
    alloc: Global,
    files: &mut F,
    at: &Name,
    report: &mut Report,
) -> Result<(), AllocError> {
    let is_put = files
        .put(at, b"old bytes, of which nothing is left")
        .is_ok()
        && files.put(at, b"0123456789").is_ok();
    report.tell("a file is put twice", is_put)?;
    let mut limit = 0u32;
    for expected in "0 01 012 0123 01234 012345 0123456 01234567 012345678 0123456789 0123456789".split(
        ' ',
    ) {
        let agrees = is_front(alloc, files, at, limit, expected.as_bytes());
        report.tell("a front of a short file", agrees)?;
        limit = limit.saturating_add(1);
    }
    let whole = is_front(alloc, files, at, 1_048_576, b"0123456789");
    report.tell("a short file", whole)
}

/// A file of ten bytes, and what is told once it is gone.
pub fn try_short<R: rt::Runtime<A = Global>>(
    system: &R,
    report: &mut Report,
) -> Result<(), AllocError> {
    let alloc = system.alloc();
    let at = name(alloc, FILE)?;
    let mut files = DiskFiles::new(system);
    fronts(alloc, &mut files, &at, report)?;
    report.tell("a file is removed", fs::remove_file(system, FILE).is_ok())?;
    let gone = matches!(files.get(alloc, &at, 10), Err(GetFault::Failed));
    report.tell("a file that is gone", gone)
}

// A text of 200,000 bytes that repeats itself only after 251.
fn long_text(alloc: Global) -> Result<Vec<u8>, AllocError> {
    let mut text = Vec::new(alloc);
    let mut byte = 0u8;
    for _ in 0..200_000 {
        text.push(byte)?;
        byte = if byte >= 250 { 0 } else { byte + 1 };
    }
    Ok(text)
}

// Puts a long text, and reads it back.
fn whole_and_front<F: Files>(
    alloc: Global,
    files: &mut F,
    at: &Name,
    text: &[u8],
    report: &mut Report,
) -> Result<(), AllocError> {
    report.tell("a long file is put", files.put(at, text).is_ok())?;
    let whole = is_front(alloc, files, at, 1_048_576, text);
    report.tell("a long file", whole)?;
    let front = text.get(..150_001).unwrap_or(b"");
    let limited = is_front(alloc, files, at, 150_000, front);
    report.tell("the front of a long file", limited)
}

/// A file that is longer than any buffer is written whole, and read back whole or to a limit.
pub fn try_long<R: rt::Runtime<A = Global>>(
    system: &R,
    report: &mut Report,
) -> Result<(), AllocError> {
    let alloc = system.alloc();
    let at = name(alloc, FILE)?;
    let text = long_text(alloc)?;
    let mut files = DiskFiles::new(system);
    whole_and_front(alloc, &mut files, &at, &text, report)?;
    report.tell(
        "a long file is removed",
        fs::remove_file(system, FILE).is_ok(),
    )
}

/// A file in a folder that is not there.
pub fn try_nowhere<R: rt::Runtime<A = Global>>(
    system: &R,
    report: &mut Report,
) -> Result<(), AllocError> {
    let nowhere = name(system.alloc(), "evo_base_tests_no_such_folder/file")?;
    let mut files = DiskFiles::new(system);
    let fails = files.put(&nowhere, b"text").is_err();
    report.tell("a folder that is not there", fails)
}
