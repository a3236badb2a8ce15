//! The files of a job, read in their order.

ghost use Rattle.std.specs.Prelude.{◌≡◌};
ghost use Rattle.evo_base.specs.States.{HoldSame, StaySure};
ghost use Rattle.evo_first_form.specs.Accepted.{IsAcceptedInterface};
ghost use Rattle.evo_iface.specs.Text.{IsPlain};
ghost use Rattle.evo_driver.specs.Files.{Holds, HoldsClient, IsWrongLibrary, IsWrongClient, unbuilt};
ghost use Rattle.evo_driver.specs.Loading.{ReadsAs, IsShortText, IsWrongText, IsLibraryOf, LoadsLibraries, LoadsAs};

use crate::stop::{Input, LoadError, Refusal};
use evo_base::{FaultKind, Files, GetFault, List, Name, Place};
use evo_first_form::{Client, Function, Interface};
use evo_front::{
    AcceptedLibrary, ClientFault, FILE_LIMIT, LibraryFault, accept_client, accept_library,
};
use evo_rules::breaks;
use evo_tree::SourceFault;
use evo_words::Job;
use std::alloc::Global;

/// The old library's interface, and the new library's functions.
#[derive(Debug, Drop)]
pub struct Libraries {
    pub interface: Interface,
    pub functions: List<Function>,
}

/// What the files of a job hold.
#[derive(Debug, Drop)]
pub struct Loaded {
    pub libraries: Libraries,
    pub client: Client,
}

// The fault of a module that is not accepted.
fn not_built() -> SourceFault
    ensures { result ≡ unbuilt }
{
    SourceFault {
        kind: FaultKind::NotBuilt,
        place: Place { line: 1, col: 1 },
    }
}

fn text_of<F: Files>(
    alloc: Global,
    files: &mut F,
    name: &Name,
    at: Input,
) -> Result<Vec<u8>, LoadError>
    ensures reads { ReadsAs (λ v. IsShortText ((F.state files.old).held name.now) v.items) (IsWrongText ((F.state files.old).held name.now))
        name.now at (F.state files.old) (F.state files.new) result }
    ensures same { HoldSame (F.state files.old) (F.state files.new) }
    ensures sure { StaySure (F.state files.old) (F.state files.new) }
{
    match files.get(alloc, name, FILE_LIMIT as u64) {
        Ok(text) if text.len() > FILE_LIMIT => Err(LoadError::Refused(at, Refusal::TooLong)),
        Ok(text) => Ok(text),
        Err(GetFault::Failed) => Err(LoadError::NotRead(at)),
        Err(GetFault::Memory) => Err(LoadError::Memory),
    }
}

fn get_library<F: Files>(
    alloc: Global,
    files: &mut F,
    library: &Name,
    name: &Name,
    at: Input,
) -> Result<AcceptedLibrary, LoadError>
    requires { IsPlain 32 library.now }
    ensures reads { ReadsAs (IsLibraryOf ((F.state files.old).held name.now) library.now) (λ why. Holds ((F.state files.old).held name.now) (IsWrongLibrary library.now why))
        name.now at (F.state files.old) (F.state files.new) result }
    ensures same { HoldSame (F.state files.old) (F.state files.new) }
    ensures sure { StaySure (F.state files.old) (F.state files.new) }
{
    let text = text_of(alloc, files, name, at)?;
    match accept_library(alloc, library, &text) {
        Ok(found) => Ok(found),
        Err(LibraryFault::Refused(fault)) => Err(LoadError::Refused(at, Refusal::Source(fault))),
        Err(LibraryFault::NotBuilt) => Err(LoadError::Refused(at, Refusal::Source(not_built()))),
        Err(LibraryFault::InterfaceTooLong) => Err(LoadError::Refused(
            at,
            Refusal::InterfaceTooLong,
        )),
        Err(LibraryFault::Memory) => Err(LoadError::Memory),
    }
}

fn get_client<F: Files>(
    alloc: Global,
    files: &mut F,
    interface: &Interface,
    name: &Name,
) -> Result<Client, LoadError>
    requires { IsAcceptedInterface interface.now }
    ensures reads { ReadsAs (HoldsClient ((F.state files.old).held name.now) interface.now) (λ why. Holds ((F.state files.old).held name.now) (IsWrongClient interface.now why))
        name.now Input.Client (F.state files.old) (F.state files.new) result }
    ensures same { HoldSame (F.state files.old) (F.state files.new) }
    ensures sure { StaySure (F.state files.old) (F.state files.new) }
{
    let text = text_of(alloc, files, name, Input::Client)?;
    match accept_client(alloc, interface, &text) {
        Ok(client) => Ok(client),
        Err(ClientFault::Refused(fault)) => {
            Err(LoadError::Refused(Input::Client, Refusal::Source(fault)))
        }
        Err(ClientFault::NotBuilt) => {
            Err(LoadError::Refused(Input::Client, Refusal::Source(not_built())))
        }
        Err(ClientFault::Memory) => Err(LoadError::Memory),
    }
}

// Reads both libraries, and tries the rules on their interfaces.
fn load_libraries<F: Files>(alloc: Global, job: &Job, files: &mut F) -> Result<Libraries, LoadError>
    requires { IsPlain 32 job.now.library }
    ensures loads { LoadsLibraries job.now (F.state files.old) (F.state files.new) result }
    ensures same { HoldSame (F.state files.old) (F.state files.new) }
    ensures sure { StaySure (F.state files.old) (F.state files.new) }
{
    let old = get_library(alloc, files, &job.library, &job.old, Input::Old)?;
    let new = get_library(alloc, files, &job.library, &job.new, Input::New)?;
    let removed = breaks(alloc, &old.interface, &new.interface)?;
    if !removed.is_empty() {
        return Err(LoadError::Broken(List::from_vec(removed)));
    }
    Ok(Libraries {
        interface: old.interface,
        functions: new.functions,
    })
}

/// Reads the files of a job in their order, and tries the rules before the client is read.
pub fn load<F: Files>(alloc: Global, job: &Job, files: &mut F) -> Result<Loaded, LoadError>
    requires { IsPlain 32 job.now.library }
    ensures loads { LoadsAs job.now (F.state files.old) (F.state files.new) result }
    ensures same { HoldSame (F.state files.old) (F.state files.new) }
{
    let libraries = load_libraries(alloc, job, files)?;
    let client = get_client(alloc, files, &libraries.interface, &job.client)?;
    Ok(Loaded { libraries, client })
}
