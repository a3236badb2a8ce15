//! What the solver answers to a question, as a text.

use crate::reading::{Setting, declarations, key, signature, type_of};
use evo_base::{Key, Name};
use evo_resolved::{ConfPath, ConfStart, RType, Signature};
use evo_solve::{Declarations, SolveFault, canonical, conformance, first_conflict};
use std::alloc::{AllocError, Global};

fn push_names(out: &mut String, names: &[Name]) -> Result<(), AllocError> {
    for name in names {
        out.push_str(".")?;
        out.push_str(name.as_str())?;
    }
    Ok(())
}

fn parameter(number: u32) -> &'static str {
    match number {
        0 => "T",
        1 => "U",
        2 => "V",
        3 => "W",
        _ => "?",
    }
}

fn push_type(out: &mut String, ty: &RType) -> Result<(), AllocError> {
    match ty {
        RType::Named(key) => out.push_str(key.base.as_str()),
        RType::Param(number) => out.push_str(parameter(*number)),
        RType::Assoc(number, names) => {
            out.push_str(parameter(*number))?;
            push_names(out, names.as_slice())
        }
        RType::NoValue => out.push_str("no value"),
    }
}

fn push_fault(out: &mut String, fault: &SolveFault) -> Result<(), AllocError> {
    match fault {
        SolveFault::Long => out.push_str("long"),
        SolveFault::NoPath => out.push_str("no path"),
        SolveFault::Memory => out.push_str("no memory"),
    }
}

fn push_keys(out: &mut String, keys: &[Key]) -> Result<(), AllocError> {
    for key in keys {
        out.push_str(" ")?;
        out.push_str(key.base.as_str())?;
    }
    Ok(())
}

fn push_path(alloc: Global, out: &mut String, path: &ConfPath) -> Result<(), AllocError> {
    match &path.start {
        ConfStart::Required(number) => {
            let text = format!(in alloc; "#{number}")?;
            out.push_str(text.as_str())?;
        }
        ConfStart::Declared(key) => out.push_str(key.base.as_str())?,
    }
    push_keys(out, path.steps.as_slice())
}

// The call without its clauses, which would stand in each goal behind it.
fn solved(
    alloc: Global,
    declarations: &Declarations,
    signature: &Signature,
    ty: &RType,
    protocol: &Key,
) -> Result<ConfPath, SolveFault> {
    conformance(alloc, declarations, signature, ty, protocol)
}

fn stands_for(alloc: Global, signature: &Signature, ty: &RType) -> Result<RType, SolveFault> {
    match first_conflict(alloc, signature) {
        Ok(None) => canonical(alloc, signature, ty),
        Ok(Some(_)) => Err(SolveFault::NoPath),
        Err(_) => Err(SolveFault::Memory),
    }
}

fn type_text(alloc: Global, found: &Result<RType, SolveFault>) -> Result<String, AllocError> {
    let mut out = String::new(alloc);
    match found {
        Ok(ty) => push_type(&mut out, ty)?,
        Err(SolveFault::NoPath) => out.push_str("conflict")?,
        Err(fault) => push_fault(&mut out, fault)?,
    }
    Ok(out)
}

// What stands for a type, or that requirements conflict.
fn of_type(alloc: Global, signature: &Signature, text: &str) -> Result<String, AllocError> {
    let ty = type_of(alloc, text)?;
    let found = stands_for(alloc, signature, &ty);
    type_text(alloc, &found)
}

fn path_text(alloc: Global, found: &Result<ConfPath, SolveFault>) -> Result<String, AllocError> {
    let mut out = String::new(alloc);
    match found {
        Ok(path) => push_path(alloc, &mut out, path)?,
        Err(fault) => push_fault(&mut out, fault)?,
    }
    Ok(out)
}

fn with_type(
    alloc: Global,
    declarations: &Declarations,
    signature: &Signature,
    ty: &RType,
    protocol: &str,
) -> Result<String, AllocError> {
    let protocol = key(alloc, protocol)?;
    let found = solved(alloc, declarations, signature, ty, &protocol);
    path_text(alloc, &found)
}

fn with_declarations(
    alloc: Global,
    declarations: &Declarations,
    signature: &Signature,
    text: &str,
) -> Result<String, AllocError> {
    let (subject, protocol) = text.split_once(':').unwrap_or((text, ""));
    let ty = type_of(alloc, subject)?;
    with_type(alloc, declarations, signature, &ty, protocol)
}

fn of_conformance(
    alloc: Global,
    setting: &Setting,
    signature: &Signature,
    text: &str,
) -> Result<String, AllocError> {
    let declarations = declarations(alloc, setting)?;
    with_declarations(alloc, &declarations, signature, text)
}

fn of_conflict(alloc: Global, signature: &Signature) -> Result<String, AllocError> {
    match first_conflict(alloc, signature)? {
        Some(number) => format!(in alloc; "at {number}"),
        None => String::from_str(alloc, "none"),
    }
}

/// What the solver answers: to `conflict`, to a type, or to a type with a protocol.
pub fn answer(alloc: Global, setting: &Setting, question: &str) -> Result<String, AllocError> {
    let signature = signature(alloc, setting)?;
    if question == "conflict" {
        return of_conflict(alloc, &signature);
    }
    if question.contains(':') {
        return of_conformance(alloc, setting, &signature, question);
    }
    of_type(alloc, &signature, question)
}
