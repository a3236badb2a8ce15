//! Texts as they are written in the table.

use std::alloc::{AllocError, Global};

fn push_line(out: &mut String, line: &str) -> Result<(), AllocError> {
    out.push_str(line)?;
    out.push_str("\n")
}

fn push_numbered(
    alloc: Global,
    out: &mut String,
    begin: &str,
    number: u32,
    end: &str,
) -> Result<(), AllocError> {
    let line = format!(in alloc; "{begin}{number}{end}")?;
    push_line(out, line.as_str())
}

// A line behind how often it stands, with `#` for its number.
fn push_repeated(alloc: Global, out: &mut String, row: &str) -> Result<(), AllocError> {
    let (times, line) = row.split_once(' ').unwrap_or((row, ""));
    let (begin, end) = line.split_once('#').unwrap_or((line, ""));
    let times = times.parse::<u32>().unwrap_or(0);
    for number in 0..times {
        push_numbered(alloc, out, begin, number, end)?;
    }
    Ok(())
}

/// A text with each line as often as it is to stand.
pub fn expanded(alloc: Global, text: &str) -> Result<String, AllocError> {
    let mut out = String::new(alloc);
    for line in text.lines() {
        match line.strip_prefix("%") {
            Some(row) => push_repeated(alloc, &mut out, row)?,
            None => push_line(&mut out, line)?,
        }
    }
    Ok(out)
}
