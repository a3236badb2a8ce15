//! What a run of an image comes to, as a text.

use crate::images::{image, setting};
use evo_base::MemSink;
use evo_code::Image;
use evo_execution::{End, MachineFault, TrapKind};
use evo_runs::{Machine, RunStop, loads};
use std::alloc::{AllocError, Global};

fn trap(kind: TrapKind) -> &'static str {
    match kind {
        TrapKind::Overflow => "overflow",
        TrapKind::Divide => "divide",
        TrapKind::Precondition => "precondition",
        TrapKind::Fatal => "fatal",
    }
}

fn fault(kind: MachineFault) -> &'static str {
    match kind {
        MachineFault::Word => "word",
        MachineFault::Range => "range",
        MachineFault::Entry => "entry",
        MachineFault::Size => "size",
    }
}

fn end_text(alloc: Global, end: End) -> Result<String, AllocError> {
    match end {
        End::Done => String::from_str(alloc, "done"),
        End::Budget => String::from_str(alloc, "budget"),
        End::Trap(kind) => {
            let kind = trap(kind);
            format!(in alloc; "trap {kind}")
        }
        End::Fault { kind, function, at } => {
            let kind = fault(kind);
            format!(in alloc; "fault {kind} {function} {at}")
        }
    }
}

fn result_text(alloc: Global, ended: Result<End, RunStop>) -> Result<String, AllocError> {
    match ended {
        Ok(end) => end_text(alloc, end),
        Err(RunStop::Write) => String::from_str(alloc, "write"),
        Err(RunStop::Memory) => String::from_str(alloc, "memory"),
    }
}

fn push_row(out: &mut String, word: &str, rest: &str) -> Result<(), AllocError> {
    out.push_str(word)?;
    out.push_str(" ")?;
    out.push_str(rest)?;
    out.push_str("\n")
}

fn push_lines(out: &mut String, written: &[u8]) -> Result<(), AllocError> {
    let text = str::from_utf8(written).unwrap_or("no text");
    for line in text.lines() {
        push_row(out, "out", line)?;
    }
    Ok(())
}

// The call without its clauses, which would stand in each goal behind it.
fn ran(
    alloc: Global,
    image: Image,
    ticks: u64,
    sink: &mut MemSink,
) -> Result<Option<Result<End, RunStop>>, AllocError> {
    if !loads(&image) {
        return Ok(None);
    }
    let mut machine = Machine::new(alloc, image)?;
    Ok(Some(machine.run(alloc, ticks, sink)))
}

fn found_text(
    alloc: Global,
    written: &[u8],
    ended: Option<Result<End, RunStop>>,
) -> Result<String, AllocError> {
    let mut out = String::new(alloc);
    push_lines(&mut out, written)?;
    let Some(ended) = ended else {
        push_row(&mut out, "end", "refused")?;
        return Ok(out);
    };
    let end = result_text(alloc, ended)?;
    push_row(&mut out, "end", end.as_str())?;
    Ok(out)
}

/// What the run of a case comes to: a row for each line that it writes, and one for its end.
pub fn found(alloc: Global, case: &str) -> Result<String, AllocError> {
    let image = image(alloc, case)?;
    let mut sink = MemSink::new(alloc, setting(case, "room", 1000))?;
    let ended = ran(alloc, image, setting(case, "ticks", 100), &mut sink)?;
    found_text(alloc, sink.bytes(), ended)
}

/// What the table says of a case: its rows that begin with `out` or `end`.
pub fn expected(alloc: Global, case: &str) -> Result<String, AllocError> {
    let mut out = String::new(alloc);
    for line in case.lines() {
        if line.starts_with("out ") || line.starts_with("end ") {
            out.push_str(line)?;
            out.push_str("\n")?;
        }
    }
    Ok(out)
}
