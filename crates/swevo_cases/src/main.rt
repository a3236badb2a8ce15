//! Tries what the top call answers on the cases of archives, and on one job over files of the system.
//!
//! The words behind the program's name are files in the current folder, each of which is an archive.
//! `README.md` beside `data/` says how a case is written.
#![tactic(auto)]

mod answer;
mod archive;
mod count;
mod disk;
mod error;
mod examples;
mod fields;
mod setting;
mod text;

use count::Count;
use std::alloc::{AllocError, Global};
use std::process::ExitCode;
use std::{env, fs, rt};

// Tries the cases of the archives that the words name.
fn tried<R: rt::Runtime<A = Global>>(
    system: &R,
    report: &mut String,
    count: &mut Count,
) -> Result<(), AllocError> {
    disk::try_job(system, count)?;
    examples::try_examples(system, report, count)?;
    let Ok(words) = env::args(system) else {
        return count.unreadable(report, "the words", "they are no text");
    };
    for word in words.skip(1) {
        let name = word.as_str();
        match fs::read_to_string(system, name) {
            Ok(text) => archive::try_all(system.alloc(), name, text.as_str(), report, count)?,
            Err(_) => count.unreadable(report, name, "it cannot be read")?,
        }
    }
    Ok(())
}

fn main(rt: HostRuntime) -> ExitCode {
    let mut report = String::new(rt.alloc());
    let mut count = Count::none();
    let done = tried(&rt, &mut report, &mut count);
    let agree = count.agree();
    let all = count.all();
    let ends = println!(rt; "{report}{agree} of {all} cases agree");
    ExitCode::from(if done.is_ok() && ends.is_ok() && count.is_whole() {
        0
    } else {
        1
    })
}
