//! Compares what the solver answers with a table of signatures.
//!
//! The table is the file `signatures.txt` beside this program. `data/README` says what a line has.
#![tactic(auto)]

mod answer;
mod reading;

use reading::Setting;
use std::alloc::{AllocError, Global};
use std::process::ExitCode;
use std::{fs, rt};

/// How many rows were compared, and how many of them agree.
#[derive(Clone, Copy)]
struct Count {
    all: u64,
    agree: u64,
}

fn compare(
    report: &mut String,
    count: &mut Count,
    row: &str,
    expected: &str,
    found: &str,
) -> Result<(), AllocError> {
    count.all = count.all.saturating_add(1);
    if expected == found {
        count.agree = count.agree.saturating_add(1);
        return Ok(());
    }
    report.push_str(row)?;
    report.push_str("\ngot: ")?;
    report.push_str(found)?;
    report.push_str("\n")?;
    Ok(())
}

fn check_row(
    alloc: Global,
    setting: &mut Setting,
    row: &str,
    report: &mut String,
    count: &mut Count,
) -> Result<(), AllocError> {
    let Some((question, expected)) = row.split_once(" -> ") else {
        return reading::set(alloc, setting, row);
    };
    let found = answer::answer(alloc, setting, question)?;
    compare(report, count, row, expected, found.as_str())
}

fn check_all<R: rt::Runtime<A = Global>>(
    system: &R,
    report: &mut String,
    count: &mut Count,
) -> Result<(), AllocError> {
    let Ok(table) = fs::read_to_string(system, "signatures.txt") else {
        return report.push_str("no table\n");
    };
    let mut setting = Setting::new(system.alloc());
    for row in table.lines() {
        check_row(system.alloc(), &mut setting, row, report, count)?;
    }
    Ok(())
}

fn main(rt: HostRuntime) -> ExitCode {
    let mut report = String::new(rt.alloc());
    let mut count = Count { all: 0, agree: 0 };
    let done = check_all(&rt, &mut report, &mut count);
    let is_whole = report.is_empty() && count.all == count.agree && count.all > 0;
    let ends = println!(rt; "{report}{} of {} rows agree", count.agree, count.all);
    ExitCode::from(if done.is_ok() && ends.is_ok() && is_whole {
        0
    } else {
        1
    })
}
