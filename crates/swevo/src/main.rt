//! Whether a new release of a library still serves a client that was built against the old one.
//!
//! The program hands its words, the files of the system and the standard streams to the top call, and ends with the number
//! of its status. `swevo` of `evo_driver`, below, says what that is; what is here is only tested. Nothing stands above.
#![tactic(auto)]

use evo_base::{DiskFiles, Files, Name, Sink, StdSink};
use evo_driver::{Status, swevo};
use evo_runs::Machine;
use std::alloc::{AllocError, Global};
use std::env::FillError;
use std::process::ExitCode;
use std::rt;

// The bytes of a word of the command line, by its number, where there is one.
fn word_at<R: rt::Runtime<A = Global>>(
    system: &R,
    number: usize,
) -> Result<Option<Vec<u8>>, AllocError> {
    for doubling in 0..32u32 {
        let mut bytes = vec![in system.alloc(); 0u8; 256usize << doubling]?;
        match system.arg(number, &mut bytes) {
            Ok(len) => {
                bytes.truncate(len);
                return Ok(Some(bytes));
            }
            Err(FillError::NotPresent) => return Ok(None),
            Err(FillError::TooLong) => {}
        }
    }
    Err(AllocError)
}

// The words behind the program's name, which need be no text itself. Where one of the words is no text, there are none.
fn words_of<R: rt::Runtime<A = Global>>(system: &R) -> Result<Vec<Name>, AllocError> {
    let mut words = Vec::new(system.alloc());
    for number in 1..usize::MAX {
        let Some(bytes) = word_at(system, number)? else {
            break;
        };
        if str::from_utf8(&bytes).is_err() {
            return Ok(Vec::new(system.alloc()));
        }
        words.push(Name::from_vec(bytes))?;
    }
    Ok(words)
}

// The top call, with the machine that it leaves. What it promises is left out here, since nothing more is said of it.
fn run<F: Files, O: Sink, E: Sink>(
    alloc: Global,
    words: &[Name],
    files: &mut F,
    out: &mut O,
    err: &mut E,
) -> (Status, Option<Machine>) {
    let mut bench = None;
    let status = swevo(alloc, words, files, out, err, &mut bench);
    (status, bench)
}

fn main(rt: HostRuntime) -> ExitCode {
    let alloc = rt.alloc();
    let Ok(words) = words_of(&rt) else {
        return ExitCode::from(Status::Memory.code());
    };
    let mut files = DiskFiles::new(&rt);
    let mut out = StdSink::new(rt.stdout());
    let mut err = StdSink::new(rt.stderr());
    let (status, _) = run(alloc, &words, &mut files, &mut out, &mut err);
    ExitCode::from(status.code())
}
