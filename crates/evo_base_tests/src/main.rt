//! Compares what real files and streams hold with what was written to them, and copies of keys with the keys.
//!
//! It works in the current folder, and leaves nothing there.
#![tactic(auto)]

mod disk;
mod keys;
mod report;
mod streams;

use report::Report;
use std::alloc::{AllocError, Global};
use std::process::ExitCode;
use std::rt;

fn tried<R: rt::Runtime<A = Global>>(system: &R, report: &mut Report) -> Result<(), AllocError> {
    disk::try_short(system, report)?;
    disk::try_long(system, report)?;
    disk::try_nowhere(system, report)?;
    streams::try_open(system.alloc(), report)?;
    streams::try_full(report)?;
    keys::try_copies(system.alloc(), report)
}

fn main(rt: HostRuntime) -> ExitCode {
    let mut report = Report {
        text: String::new(rt.alloc()),
        all: 0,
        agree: 0,
    };
    let done = tried(&rt, &mut report);
    let text = report.text.as_str();
    let ends = println!(rt; "{text}{} of {} agree", report.agree, report.all);
    let is_whole = report.agree == report.all && done.is_ok() && ends.is_ok();
    ExitCode::from(if is_whole { 0 } else { 1 })
}
