//! A job up to its text on `err`.

ghost use Rattle.std.specs.Prelude.{◌≡◌, List, ℕ};
ghost use Rattle.evo_base.specs.States.{HoldSame};
ghost use Rattle.evo_iface.specs.Text.{IsPlain};
ghost use Rattle.evo_lex.specs.ModuleName.{IsModule};
ghost use Rattle.evo_words.specs.Words.{IsEvolve};
ghost use Rattle.evo_driver.specs.Files.{name_of};
ghost use Rattle.evo_driver.specs.Top.{GivesResult, Means};

use crate::load::load;
use crate::reply::{Reply, ReplyError, not_understood, refused, unread};
use crate::report::report;
use crate::run::run;
use crate::stop::{Input, LoadError};
use evo_base::{Files, Name, Sink};
use evo_words::{Job, job_of};
use std::alloc::Global;

fn name_at(job: &Job, at: Input) -> &Name
    ensures { result.now ≡ name_of job.now at }
{
    match at {
        Input::Old => &job.old,
        Input::New => &job.new,
        Input::Client => &job.client,
    }
}

// The name of a module has no space.
fn known_plain(library: &Name)
    requires { IsModule library.now }
    ensures { IsPlain 32 library.now }
{
    let _bytes = library.as_slice();
}

// The job that the words ask for.
fn evolve<F: Files, O: Sink>(
    alloc: Global,
    job: &Job,
    files: &mut F,
    out: &mut O,
) -> Result<Reply, ReplyError>
    requires { IsModule job.now.library }
    ensures gives { (words : List (List ℕ)) → IsEvolve words job.now →
        GivesResult (Means words (F.state files.old) (F.state files.new)) (O.state out.old) (O.state out.new) result }
    ensures files { HoldSame (F.state files.old) (F.state files.new) }
{
    known_plain(&job.library);
    match load(alloc, job, files) {
        Ok(loaded) => run(alloc, &loaded, job.ticks, out),
        Err(LoadError::Broken(names)) => report(alloc, &job.library, names.as_slice(), out),
        Err(LoadError::Refused(at, why)) => Ok(refused(alloc, name_at(job, at), why)?),
        Err(LoadError::NotRead(at)) => Ok(unread(alloc, name_at(job, at))?),
        Err(LoadError::Memory) => Err(ReplyError::Memory),
    }
}

/// All of a job but its text on `err`.
pub fn perform<F: Files, O: Sink>(
    alloc: Global,
    words: &[Name],
    files: &mut F,
    out: &mut O,
) -> Result<Reply, ReplyError>
    ensures gives { GivesResult (Means words.now (F.state files.old) (F.state files.new)) (O.state out.old) (O.state out.new) result }
    ensures files { HoldSame (F.state files.old) (F.state files.new) }
{
    match job_of(alloc, words)? {
        None => Ok(not_understood(alloc)?),
        Some(job) => evolve(alloc, &job, files, out),
    }
}
