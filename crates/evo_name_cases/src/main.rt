//! Compares the faults of names that are told of headers with a table of texts.
//!
//! The table is the file `texts.txt` beside this program, or the file that its word names. `data/README` says what a case has.
#![tactic(auto)]

mod headers;
mod texts;

use std::alloc::{AllocError, Global};
use std::process::ExitCode;
use std::{env, fs, rt};

/// How many cases were compared, and how many of them agree.
#[derive(Clone, Copy)]
struct Count {
    all: u64,
    agree: u64,
}

fn compare(
    report: &mut String,
    count: &mut Count,
    case: &str,
    expected: &str,
    found: &str,
) -> Result<(), AllocError> {
    count.all = count.all.saturating_add(1);
    if expected == found {
        count.agree = count.agree.saturating_add(1);
        return Ok(());
    }
    report.push_str(case)?;
    report.push_str("\ngot: ")?;
    report.push_str(found)?;
    report.push_str("\n")?;
    Ok(())
}

fn check_case(
    alloc: Global,
    case: &str,
    report: &mut String,
    count: &mut Count,
) -> Result<(), AllocError> {
    let (head, text) = case.split_once('\n').unwrap_or((case, ""));
    let (_, expected) = head.split_once(" -> ").unwrap_or((head, ""));
    let found = headers::found(alloc, text)?;
    compare(report, count, head, expected, found.as_str())
}

fn check_file<R: rt::Runtime<A = Global>>(
    system: &R,
    name: &str,
    report: &mut String,
    count: &mut Count,
) -> Result<(), AllocError> {
    let Ok(table) = fs::read_to_string(system, name) else {
        return report.push_str("no table\n");
    };
    for case in table.split("\n\n") {
        check_case(system.alloc(), case, report, count)?;
    }
    Ok(())
}

fn check_all<R: rt::Runtime<A = Global>>(
    system: &R,
    report: &mut String,
    count: &mut Count,
) -> Result<(), AllocError> {
    let Ok(words) = env::args(system) else {
        return report.push_str("no words\n");
    };
    for name in words.skip(1) {
        check_file(system, name.as_str(), report, count)?;
    }
    Ok(())
}

fn main(rt: HostRuntime) -> ExitCode {
    let mut report = String::new(rt.alloc());
    let mut count = Count { all: 0, agree: 0 };
    let done = check_all(&rt, &mut report, &mut count);
    let is_whole = report.is_empty() && count.all == count.agree && count.all > 0;
    let ends = println!(rt; "{report}{} of {} cases agree", count.agree, count.all);
    ExitCode::from(if done.is_ok() && ends.is_ok() && is_whole {
        0
    } else {
        1
    })
}
