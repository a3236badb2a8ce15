ghost use Rattle.std.specs.Prelude.{◌≡◌, ◌≤◌, IfOk, length};
ghost use Rattle.evo_iface.specs.Text.{IsPlain, IsReadable};
ghost use Rattle.evo_first_form.specs.Interface.{interface_of as the_interface};
ghost use Rattle.evo_front.specs.Texts.{file_limit, FindsLibrary, AcceptsLibrary, HasAcceptedInterface, IsInterfaceWithin};
ghost use Rattle.evo_front.specs.declared.library.LibraryFault.TheVariants.{Memory};

use crate::limits::INTERFACE_LIMIT;
use crate::names::are_accepted;
use evo_base::{List, Name};
use evo_first_form::{Function, Interface, library_of};
use evo_iface::{interface_of, read_interface};
use evo_parse::{TextFault, one_module, read_module};
use evo_tree::{Form, Module, SourceFault};
use std::alloc::{AllocError, Global};

/// A library, and its interface as it was read from the interface's text.
#[derive(Debug, Drop)]
pub struct AcceptedLibrary {
    pub functions: List<Function>,
    pub interface: Interface,
}

/// Why a text gives no library.
#[derive(Clone, Copy, PartialEq, Eq)]
pub enum LibraryFault {
    /// It spells no module: the first fault.
    Refused(SourceFault),
    /// It spells a module that is no library of the first form, or breaks a rule of its names.
    NotBuilt,
    /// It is accepted as a library, and the text of its interface has too many bytes.
    InterfaceTooLong,
    /// No memory was left.
    Memory,
}

impl From<AllocError> for LibraryFault {
    ghost from_gives = { λ _ e. e ≡ Memory };

    fn from(_: AllocError) -> Self {
        LibraryFault::Memory
    }
}

// The interface of a library: its text is written and read again.
fn reread_interface(
    alloc: Global,
    library: &Name,
    functions: &[Function],
) -> Result<Option<Interface>, AllocError>
    requires { IsReadable (the_interface library.now functions.now) }
    ensures { IfOk result (IsInterfaceWithin (the_interface library.now functions.now)) }
{
    let text = interface_of(alloc, library, functions)?;
    if text.len() > INTERFACE_LIMIT {
        return Ok(None);
    }
    read_interface(alloc, &text)
}

// The functions of the library that a module is, where it is accepted.
fn functions_of(
    alloc: Global,
    library: &Name,
    tree: &Module,
) -> Result<Option<List<Function>>, AllocError>
    ensures { IfOk result (FindsLibrary library.now tree.now) }
{
    let Some(functions) = library_of(alloc, tree)? else {
        return Ok(None);
    };
    if are_accepted(alloc, library, functions.as_slice())? {
        Ok(Some(functions))
    } else {
        Ok(None)
    }
}

/// The library of this name that a text is, with its interface. The name has no space in it.
pub fn accept_library(
    alloc: Global,
    library: &Name,
    text: &[u8],
) -> Result<AcceptedLibrary, LibraryFault>
    requires plain { IsPlain 32 library.now }
    requires short { length text.now ≤ file_limit }
    ensures accepts { AcceptsLibrary library.now text.now result }
    ensures interface { HasAcceptedInterface result }
{
    let tree = match read_module(alloc, text, Form::Library(library.copy(alloc)?)) {
        Ok(tree) => tree,
        Err(TextFault::Refused(fault)) => return Err(LibraryFault::Refused(fault)),
        Err(TextFault::Memory) => return Err(LibraryFault::Memory),
    };
    let Some(functions) = functions_of(alloc, library, &tree)? else {
        one_module();
        return Err(LibraryFault::NotBuilt);
    };
    let Some(interface) = reread_interface(alloc, library, functions.as_slice())? else {
        return Err(LibraryFault::InterfaceTooLong);
    };
    Ok(AcceptedLibrary {
        functions,
        interface,
    })
}
