//! The top call over files of the system.

use crate::answer::run;
use crate::count::Count;
use evo_base::{DiskFiles, Files, Name, StdSink};
use std::alloc::{AllocError, Global};
use std::{fs, rt};

fn name_of(alloc: Global, text: &str) -> Result<Name, AllocError> {
    Ok(Name::from_vec(Vec::from_slice(alloc, text.as_bytes())?))
}

fn words_of(alloc: Global) -> Result<Vec<Name>, AllocError> {
    let mut words = Vec::new(alloc);
    for word in "evolve Lib swevo_job_old swevo_job_new swevo_job_main 2".split(' ') {
        words.push(name_of(alloc, word)?)?;
    }
    Ok(words)
}

// Whether the job answers this over the files that are there.
fn answers<F: Files>(
    alloc: Global,
    files: &mut F,
    code: u8,
    out: &str,
    err: &str,
) -> Result<bool, AllocError> {
    let words = words_of(alloc)?;
    let mut text = Vec::new(alloc);
    let mut told = Vec::new(alloc);
    let mut out_sink = StdSink::new(&mut text);
    let mut err_sink = StdSink::new(&mut told);
    let (status, _) = run(alloc, &words, files, &mut out_sink, &mut err_sink);
    Ok(
        status.code() == code
            && text.as_slice() == out.as_bytes()
            && told.as_slice() == err.as_bytes(),
    )
}

fn put<F: Files>(alloc: Global, files: &mut F, at: &str, text: &str) -> Result<bool, AllocError> {
    let at = name_of(alloc, at)?;
    Ok(files.put(&at, text.as_bytes()).is_ok())
}

// Puts the files of the job.
fn are_put<F: Files>(alloc: Global, files: &mut F) -> Result<bool, AllocError> {
    let old = put(
        alloc,
        files,
        "swevo_job_old",
        "public func f() -> Int { return 1 }",
    )?;
    let new = put(
        alloc,
        files,
        "swevo_job_new",
        "public func f() -> Int { return 2 }",
    )?;
    let client = put(alloc, files, "swevo_job_main", "import Lib\nprint(f())")?;
    Ok(old && new && client)
}

fn are_removed<R: rt::Files>(system: &R) -> bool {
    fs::remove_file(system, "swevo_job_old").is_ok()
        && fs::remove_file(system, "swevo_job_new").is_ok()
        && fs::remove_file(system, "swevo_job_main").is_ok()
}

// Tries the job where its files are there, and where they are gone.
fn agree<R: rt::Runtime<A = Global>>(system: &R) -> Result<bool, AllocError> {
    let alloc = system.alloc();
    let mut files = DiskFiles::new(system);
    let are_there = are_put(alloc, &mut files)?;
    let is_run = answers(alloc, &mut files, 0, "2\n", "")?;
    let are_gone = are_removed(system);
    let is_told = answers(alloc, &mut files, 6, "", "cannot read swevo_job_old\n")?;
    Ok(are_there && is_run && are_gone && is_told)
}

/// Tries a job over files of the system, which it writes into the current folder and removes.
pub fn try_job<R: rt::Runtime<A = Global>>(
    system: &R,
    count: &mut Count,
) -> Result<(), AllocError> {
    let agrees = agree(system)?;
    count.case(agrees);
    Ok(())
}
