ghost use Rattle.std.specs.Prelude.{◌≡◌, ◌≤◌, ◌<◌, IfOk, length};
ghost use Rattle.std.specs.Option.{option_map};
ghost use Rattle.evo_iface.specs.Text.{Reads};
ghost use Rattle.evo_iface.specs.Fronts.{length_before, Between, Inlinable, Front, Functions};

use crate::term::{name_of, term_of};
use crate::texts::{
    BEFORE_INLINABLE, BEFORE_MODULE, BEFORE_NAME, BEFORE_TERM, BEHIND_MODULE, BEHIND_NAME,
    BEHIND_TERM,
};
use evo_base::{List, Name};
use evo_first_form::{Declaration, Interface, Term};
use std::alloc::{AllocError, Global};

// How many bytes stand before the first such byte.
fn length_before_byte(text: &[u8], byte: u8) -> usize
    ensures value { result ≡ length_before byte text.now }
    ensures within { result ≤ length text.now }
{
    for (i, c) in text.iter().enumerate() {
        if *c == byte {
            return i;
        }
    }
    text.len()
}

// The name between two texts at the front, and the rest. The name goes up to the first byte of the second text.
fn name_between<'t>(
    alloc: Global,
    text: &'t [u8],
    before: &[u8],
    behind: &[u8],
) -> Result<Option<(Name, &'t [u8])>, AllocError>
    requires { 0 < length behind.now }
    ensures { IfOk result (Between before.now behind.now text.now) }
{
    let Some(text) = text.strip_prefix(before) else {
        return Ok(None);
    };
    let (front, rest) = text.split_at(length_before_byte(text, behind[0]));
    let Some(rest) = rest.strip_prefix(behind) else {
        return Ok(None);
    };
    let Some(name) = name_of(alloc, front)? else {
        return Ok(None);
    };
    Ok(Some((name, rest)))
}

// The inlinable function at the front with its body, and the rest.
fn read_inlinable<'t>(
    alloc: Global,
    text: &'t [u8],
) -> Result<Option<(Name, Term, &'t [u8])>, AllocError>
    ensures { IfOk result (Inlinable text.now) }
{
    let Some((name, rest)) = name_between(alloc, text, BEFORE_INLINABLE, BEFORE_TERM)? else {
        return Ok(None);
    };
    let Some((term, rest)) = name_between(alloc, rest, b"", BEHIND_TERM)? else {
        return Ok(None);
    };
    let Some(body) = term_of(alloc, term.as_slice())? else {
        return Ok(None);
    };
    Ok(Some((name, body, rest)))
}

// The function at the front, and the rest.
fn read_function<'t>(
    alloc: Global,
    text: &'t [u8],
) -> Result<Option<(Declaration, &'t [u8])>, AllocError>
    ensures { IfOk result (Front text.now) }
{
    if let Some((name, body, rest)) = read_inlinable(alloc, text)? {
        let body = Some(body);
        return Ok(Some((Declaration { name, body }, rest)));
    }
    let Some((name, rest)) = name_between(alloc, text, BEFORE_NAME, BEHIND_NAME)? else {
        return Ok(None);
    };
    Ok(Some((Declaration { name, body: None }, rest)))
}

// The functions of a whole text.
fn read_functions(alloc: Global, text: &[u8]) -> Result<Option<Vec<Declaration>>, AllocError>
    ensures { IfOk result (λ r. Functions text.now (option_map (λ v. v.items) r)) }
{
    let mut functions = Vec::new(alloc);
    let mut rest = text;
    while !rest.is_empty() {
        let Some((function, more)) = read_function(alloc, rest)? else {
            return Ok(None);
        };
        functions.push(function)?;
        rest = more;
    }
    Ok(Some(functions))
}

/// The interface whose canonical text this is, or `None` where it is no such text. Only memory can fail.
pub fn read_interface(alloc: Global, text: &[u8]) -> Result<Option<Interface>, AllocError>
    ensures { IfOk result (Reads text.now) }
{
    let Some((name, rest)) = name_between(alloc, text, BEFORE_MODULE, BEHIND_MODULE)? else {
        return Ok(None);
    };
    let Some(functions) = read_functions(alloc, rest)? else {
        return Ok(None);
    };
    Ok(Some(Interface {
        name,
        functions: List::from_vec(functions),
    }))
}
