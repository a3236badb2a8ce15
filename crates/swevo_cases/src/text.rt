//! What the texts of an archive stand for.

use crate::error::CaseError;
use std::alloc::Global;

fn number(text: &str) -> Result<u64, CaseError> {
    text.parse::<u64>()
        .map_err(|_| CaseError::Form("a number is none"))
}

// A copy of a text, in which `#` stands for its number.
fn push_copy(alloc: Global, out: &mut Vec<u8>, text: &str, at: u64) -> Result<(), CaseError> {
    let at = format!(in alloc; "{at}")?;
    let mut first = true;
    for piece in text.split('#') {
        if !first {
            out.extend_from_slice(at.as_bytes())?;
        }
        out.extend_from_slice(piece.as_bytes())?;
        first = false;
    }
    Ok(())
}

fn push_copies(alloc: Global, out: &mut Vec<u8>, text: &str, count: u64) -> Result<(), CaseError> {
    let is_numbered = text.contains('#');
    for at in 0..count {
        if is_numbered {
            push_copy(alloc, out, text, at)?;
        } else {
            out.extend_from_slice(text.as_bytes())?;
        }
    }
    Ok(())
}

fn digit(text: &str) -> Result<u8, CaseError> {
    match u8::from_str_radix(text, 16) {
        Ok(byte) if text.len() == 2 => Ok(byte),
        _ => Err(CaseError::Form("a byte is not two hexadecimal digits")),
    }
}

// Bytes, each written as two hexadecimal digits.
fn push_bytes(out: &mut Vec<u8>, digits: &str) -> Result<(), CaseError> {
    if digits.is_empty() {
        return Ok(());
    }
    for byte in digits.split(' ') {
        out.push(digit(byte)?)?;
    }
    Ok(())
}

fn push_mark(alloc: Global, out: &mut Vec<u8>, mark: &str) -> Result<(), CaseError> {
    match mark.rsplit_once(" × ") {
        Some((text, count)) => push_copies(alloc, out, text, number(count)?),
        None => push_bytes(out, mark),
    }
}

/// The bytes that a text of an archive stands for.
pub fn bytes_of(alloc: Global, text: &str) -> Result<Vec<u8>, CaseError> {
    let mut out = Vec::new(alloc);
    let mut first = true;
    for piece in text.split('⟦') {
        let mut rest = piece;
        if !first {
            let Some((mark, behind)) = piece.split_once('⟧') else {
                return Err(CaseError::Form("a mark is not closed"));
            };
            push_mark(alloc, &mut out, mark)?;
            rest = behind;
        }
        out.extend_from_slice(rest.as_bytes())?;
        first = false;
    }
    Ok(out)
}
