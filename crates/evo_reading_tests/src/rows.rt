//! Tables and their rows.

use crate::modules::{answer, verdict};
use crate::{expression, tokens};
use std::alloc::{AllocError, Global};

/// How many rows were compared, and how many of them agree.
#[derive(Clone, Copy)]
pub struct Count {
    pub all: u64,
    pub agree: u64,
}

// A text of a table. In it `⏎` stands for a line feed, `␍` for a carriage return and `⇥` for a tab.
fn text_of(alloc: Global, text: &str) -> Result<String, AllocError> {
    let mut out = String::new(alloc);
    for letter in text.chars() {
        out.push(match letter {
            '⏎' => '\n',
            '␍' => '\r',
            '⇥' => '\t',
            _ => letter,
        })?;
    }
    Ok(out)
}

/// Reports what differs.
pub fn differs(
    report: &mut String,
    row: &str,
    expected: &str,
    found: &str,
) -> Result<(), AllocError> {
    report.push_str(row)?;
    report.push_str("\nexpected: ")?;
    report.push_str(expected)?;
    report.push_str("\ngot:      ")?;
    report.push_str(found)?;
    report.push_str("\n")?;
    Ok(())
}

/// Compares what came of a row with what it says.
pub fn compare(
    report: &mut String,
    count: &mut Count,
    row: &str,
    expected: &str,
    found: &str,
) -> Result<(), AllocError> {
    count.all = count.all.saturating_add(1);
    if expected == found {
        count.agree = count.agree.saturating_add(1);
        return Ok(());
    }
    differs(report, row, expected, found)
}

// What a text with a form before it gives.
fn of_form(alloc: Global, what: &str, text: &str) -> Result<String, AllocError> {
    let (form, text) = text.split_once(' ').unwrap_or((text, ""));
    answer(alloc, what, form, text)
}

fn of_pair(alloc: Global, text: &str) -> Result<String, AllocError> {
    let (first, second) = text.split_once(" ≈ ").unwrap_or((text, ""));
    String::from_str(alloc, verdict(alloc, first, second)?)
}

// What a text gives in a table.
fn found(alloc: Global, table: &str, text: &str) -> Result<String, AllocError> {
    match table {
        "tokens.txt" => tokens::shown(alloc, text),
        "expressions.txt" => expression::shown(alloc, text),
        "outlines.txt" => of_form(alloc, "outline", text),
        "canonical.txt" => of_form(alloc, "text", text),
        "titles.txt" => of_form(alloc, "title", text),
        "trips.txt" => of_form(alloc, "", text),
        "same.txt" => of_pair(alloc, text),
        _ => String::from_str(alloc, "no such table"),
    }
}

fn check_row(
    alloc: Global,
    table: &str,
    row: &str,
    report: &mut String,
    count: &mut Count,
) -> Result<(), AllocError> {
    let Some((text, expected)) = row.split_once(" → ") else {
        return differs(report, row, "an arrow", "none");
    };
    let text = text_of(alloc, text)?;
    let expected = text_of(alloc, expected)?;
    let found = found(alloc, table, text.as_str())?;
    compare(report, count, row, expected.as_str(), found.as_str())
}

/// Compares the rows of a table, which stand behind its first line.
pub fn check(
    alloc: Global,
    name: &str,
    table: &str,
    report: &mut String,
    count: &mut Count,
) -> Result<(), AllocError> {
    let Some(lines) = table.strip_suffix('\n') else {
        return differs(report, name, "a line feed at its end", "none");
    };
    let before = count.all;
    for row in lines.split('\n').skip(1) {
        check_row(alloc, name, row, report, count)?;
    }
    if count.all == before {
        return differs(report, name, "a row", "none");
    }
    Ok(())
}
