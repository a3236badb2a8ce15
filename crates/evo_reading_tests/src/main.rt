//! Compares what the lexer, the readers and the printer answer with tables.
//!
//! The words behind the program's name are the tables, each a file of that name in the current folder. A row has a text
//! and what it gives, with an arrow between them. `README.md` beside `data/` says what each table has.
#![tactic(auto)]

mod expression;
mod modules;
mod outline;
mod rows;
mod tokens;

use rows::Count;
use std::alloc::{AllocError, Global};
use std::process::ExitCode;
use std::{env, fs, io, rt};

// The text of a file beside this one, where it can be read.
fn file<R: rt::Runtime<A = Global>>(system: &R, name: &str) -> io::Result<String> {
    fs::read_to_string(system, name)
}

// Compares the printed text of a library with what is written by hand.
fn printed<R: rt::Runtime<A = Global>>(
    system: &R,
    report: &mut String,
    count: &mut Count,
) -> Result<(), AllocError> {
    let (Ok(source), Ok(canonical)) = (
        file(system, "shapes.swift"),
        file(system, "shapes.canonical.swift"),
    ) else {
        return rows::differs(report, "shapes.swift", "a file", "none");
    };
    let alloc = system.alloc();
    let found = modules::answer(alloc, "text", "L", source.as_str())?;
    rows::compare(
        report,
        count,
        "shapes.swift",
        canonical.as_str(),
        found.as_str(),
    )
}

fn tried<R: rt::Runtime<A = Global>>(
    system: &R,
    report: &mut String,
    count: &mut Count,
) -> Result<(), AllocError> {
    printed(system, report, count)?;
    let Ok(words) = env::args(system) else {
        return Ok(());
    };
    for word in words.skip(1) {
        match file(system, word.as_str()) {
            Ok(table) => rows::check(system.alloc(), word.as_str(), table.as_str(), report, count)?,
            Err(_) => rows::differs(report, word.as_str(), "a table", "none")?,
        }
    }
    Ok(())
}

fn main(rt: HostRuntime) -> ExitCode {
    let mut report = String::new(rt.alloc());
    let mut count = Count { all: 0, agree: 0 };
    let done = tried(&rt, &mut report, &mut count);
    let is_whole = report.is_empty() && count.all == count.agree && count.all > 0;
    let ends = println!(rt; "{report}{} of {} rows agree", count.agree, count.all);
    ExitCode::from(if done.is_ok() && ends.is_ok() && is_whole {
        0
    } else {
        1
    })
}
