//! Jobs, and the words that ask for them.

ghost use Rattle.std.specs.Prelude.{◌≡◌, IfOk, MatchOption};
ghost use Rattle.evo_words.specs.Words.{IsEvolve};
ghost use Rattle.evo_words.specs.declared.words.Job.{Job};

use evo_base::Name;
use evo_lex::{is_module, number_of};
use std::alloc::{AllocError, Global};

/// What `evolve MODULE OLD NEW CLIENT TICKS` asks for: two library sources and a client, by name,
/// under a module's name, and a number of ticks.
#[derive(Debug, Drop)]
pub struct Job {
    /// The name of the library's module, in either release.
    pub library: Name,
    /// The file of the old library's source.
    pub old: Name,
    /// The file of the new library's source.
    pub new: Name,
    /// The file of the client's source.
    pub client: Name,
    /// How many ticks the program may run.
    pub ticks: u64,
}

/// The job that the words ask for, the first word being the command. An error is want of memory.
pub fn job_of(alloc: Global, words: &[Name]) -> Result<Option<Job>, AllocError>
    ensures { IfOk result (λ r. MatchOption r ((job : Job) → IsEvolve words.now job → ⊥) (IsEvolve words.now)) }
{
    let [verb, library, old, new, client, ticks] = words else {
        return Ok(None);
    };
    if verb.as_slice() != b"evolve".as_slice() {
        return Ok(None);
    }
    if !is_module(library.as_str()) {
        return Ok(None);
    }
    if old.as_slice().is_empty() || new.as_slice().is_empty() || client.as_slice().is_empty() {
        return Ok(None);
    }
    let Some(ticks) = number_of(alloc, ticks.as_slice())? else {
        return Ok(None);
    };
    Ok(Some(Job {
        library: library.copy(alloc)?,
        old: old.copy(alloc)?,
        new: new.copy(alloc)?,
        client: client.copy(alloc)?,
        ticks,
    }))
}
