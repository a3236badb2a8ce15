ghost use Rattle.std.specs.Prelude.{◌≡◌};
ghost use Rattle.evo_driver.specs.declared.stop.LoadError.TheVariants.{Memory};

use evo_base::{List, Name};
use evo_tree::SourceFault;
use std::alloc::AllocError;

/// One of the files of a job.
#[derive(Clone, Copy, Debug, PartialEq, Eq)]
pub enum Input {
    Old,
    New,
    Client,
}

/// What is wrong with a file that was read.
#[derive(Clone, Copy, PartialEq, Eq)]
pub enum Refusal {
    /// It has too many bytes.
    TooLong,
    /// It is not accepted: its first fault. A module that is not accepted has its fault at its beginning.
    Source(SourceFault),
    /// It is accepted as a library, and the text of its interface has too many bytes.
    InterfaceTooLong,
}

/// Why a job's files are not run.
#[derive(Drop)]
pub enum LoadError {
    NotRead(Input),
    Refused(Input, Refusal),
    /// Both libraries are accepted, and the new one lacks these functions.
    Broken(List<Name>),
    Memory,
}

impl From<AllocError> for LoadError {
    ghost from_gives = { λ _ e. e ≡ Memory };

    fn from(_: AllocError) -> Self {
        LoadError::Memory
    }
}
