ghost use Rattle.std.specs.Prelude.{◌≡◌, ◌++◌, Some, [], ◌∷◌, IfOk, OnOk};
ghost use Rattle.evo_first_form.specs.Interface.{declarations_of, interface_of as the_interface};
ghost use Rattle.evo_iface.specs.Text.{interface_text, functions_text, function_text, term_text};

use crate::texts::{
    BEFORE_INLINABLE, BEFORE_MODULE, BEFORE_NAME, BEFORE_TERM, BEHIND_CALL, BEHIND_MODULE,
    BEHIND_NAME, BEHIND_TERM,
};
use evo_base::Name;
use evo_first_form::{Access, Function, Term};
use std::alloc::{AllocError, Global};

// Writes a name between two texts.
fn write_between(
    text: &mut Vec<u8>,
    before: &[u8],
    name: &[u8],
    behind: &[u8],
) -> Result<(), AllocError>
    ensures { OnOk result (text.new.items ≡ text.old.items ++ (before.now ++ (name.now ++ behind.now))) }
{
    text.extend_from_slice(before)?;
    text.extend_from_slice(name)?;
    text.extend_from_slice(behind)?;
    Ok(())
}

// Writes a term.
fn write_term(alloc: Global, text: &mut Vec<u8>, term: &Term) -> Result<(), AllocError>
    ensures { OnOk result (text.new.items ≡ text.old.items ++ term_text term.now) }
{
    match term {
        Term::Integer(value) => {
            let digits = value.to_string(alloc)?;
            text.extend_from_slice(digits.as_bytes())
        }
        Term::Call(name) => {
            text.extend_from_slice(name.as_slice())?;
            text.extend_from_slice(BEHIND_CALL)
        }
    }
}

// Writes the lines of an inlinable function.
fn write_inlinable(
    alloc: Global,
    text: &mut Vec<u8>,
    name: &[u8],
    body: &Term,
) -> Result<(), AllocError>
    ensures { OnOk result (text.new.items ≡ text.old.items ++ function_text name.now (Some body.now)) }
{
    write_between(text, BEFORE_INLINABLE, name, BEFORE_TERM)?;
    write_term(alloc, text, body)?;
    text.extend_from_slice(BEHIND_TERM)?;
    Ok(())
}

// Writes the lines of a function, where clients see it.
fn write_function(alloc: Global, text: &mut Vec<u8>, function: &Function) -> Result<(), AllocError>
    ensures { OnOk result (text.new.items ≡ text.old.items ++ functions_text (declarations_of (function.now ∷ []))) }
{
    let name = function.name.as_slice();
    match function.access {
        Access::Internal => Ok(()),
        Access::Public => write_between(text, BEFORE_NAME, name, BEHIND_NAME),
        Access::Inlinable => write_inlinable(alloc, text, name, &function.body),
    }
}

// Writes the lines of the functions that clients see.
fn write_functions(
    alloc: Global,
    text: &mut Vec<u8>,
    functions: &[Function],
) -> Result<(), AllocError>
    ensures { OnOk result (text.new.items ≡ text.old.items ++ functions_text (declarations_of functions.now)) }
{
    for function in functions {
        write_function(alloc, text, function)?;
    }
    Ok(())
}

/// The canonical text of the interface of a library of release 1.0: the format's version, the module's
/// name, the import of `Swift`, and the functions that clients see in source order, the inlinable ones
/// with their bodies. Only memory can fail.
pub fn interface_of(
    alloc: Global,
    library: &Name,
    functions: &[Function],
) -> Result<Vec<u8>, AllocError>
    ensures { IfOk result (λ text. text.items ≡ interface_text (the_interface library.now functions.now)) }
{
    let mut text = Vec::new(alloc);
    write_between(&mut text, BEFORE_MODULE, library.as_slice(), BEHIND_MODULE)?;
    write_functions(alloc, &mut text, functions)?;
    Ok(text)
}
