//! Archives.

use crate::answer;
use crate::count::Count;
use crate::error::CaseError;
use crate::fields::check_form;
use crate::setting::Case;
use std::alloc::{AllocError, Global};

// Tries a case.
fn try_one(
    alloc: Global,
    case: Case<'_>,
    report: &mut String,
    count: &mut Count,
) -> Result<(), AllocError> {
    match answer::agrees(alloc, case, report) {
        Ok(agrees) => {
            count.case(agrees);
            Ok(())
        }
        Err(CaseError::Form(why)) => {
            count.case(false);
            let name = case.name();
            count.unreadable(report, name, why)
        }
        Err(CaseError::Memory) => Err(AllocError),
    }
}

// Whether a head is written as one; where it is not, that is reported.
fn is_head(
    name: &str,
    head: &str,
    report: &mut String,
    count: &mut Count,
) -> Result<bool, AllocError> {
    if head.starts_with('#') && check_form(head).is_ok() {
        return Ok(true);
    }
    count.unreadable(report, name, "it has no head that is written as one")?;
    Ok(false)
}

/// Tries each case of an archive.
pub fn try_all(
    alloc: Global,
    name: &str,
    text: &str,
    report: &mut String,
    count: &mut Count,
) -> Result<(), AllocError> {
    let Some(text) = text.strip_suffix('\n') else {
        return count.unreadable(report, name, "it does not end with a line feed");
    };
    let Some((head, cases)) = text.split_once("\n\n=== ") else {
        return count.unreadable(report, name, "it has no case");
    };
    if !is_head(name, head, report, count)? {
        return Ok(());
    }
    for text in cases.split("\n\n=== ") {
        try_one(alloc, Case { head, text }, report, count)?;
    }
    Ok(())
}
