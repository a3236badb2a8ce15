//! Builds, links and runs what was loaded.

ghost use Rattle.std.specs.Prelude.{◌≡◌, IfOk, Some, Ok};
ghost use Rattle.evo_execution.specs.Loaded.{IsLoaded};
ghost use Rattle.evo_driver.specs.Loading.{IsBuiltFrom, Builds, run_with};
ghost use Rattle.evo_driver.specs.Top.{GivesResult, EndsResult, IsNoFault};
ghost use Rattle.evo_driver.specs.Answer.{AnswersRun};

use crate::load::Loaded;
use crate::reply::{Reply, ReplyError};
use crate::status::Status;
use evo_base::Sink;
use evo_code::Image;
use evo_execution::End;
use evo_first_code::{LinkFault, build_client, build_library, link};
use evo_runs::{Machine, RunStop};
use std::alloc::{AllocError, Global};

// The image of the new library's object and the client's, which was built from the old interface.
fn build(alloc: Global, loaded: &Loaded) -> Result<Image, AllocError>
    requires { Builds loaded.now }
    ensures loads { IfOk result (λ image. IsLoaded image) }
    ensures does { IfOk result (λ image. IsBuiltFrom loaded.now image) }
{
    let library = &loaded.libraries.interface.name;
    let functions = loaded.libraries.functions.as_slice();
    let client = build_client(alloc, &loaded.libraries.interface, &loaded.client)?;
    let library = build_library(alloc, library, functions)?;
    match link(alloc, library, client) {
        Ok(image) => Ok(image),
        Err(LinkFault::Memory) => Err(AllocError),
        Err(LinkFault::Twice(_)) => unreachable!(),
        Err(LinkFault::Missing(_)) => unreachable!(),
    }
}

// A reply to a run that came to its end without a fault.
fn ended(alloc: Global, end: End, machine: Machine) -> Result<Reply, AllocError>
    requires finished { machine.finished ≡ Some (Ok end) }
    requires faultless { IsNoFault end }
    ensures { IfOk result (EndsResult end) }
{
    let (text, status) = match end {
        End::Done => (Vec::new(alloc), Status::Done),
        End::Budget => (b"out of ticks\n".to_vec(alloc)?, Status::OutOfTicks),
        End::Trap(_) => unreachable!(),
        End::Fault { .. } => unreachable!(),
    };
    Ok(Reply {
        text,
        status,
        bench: Some(machine),
    })
}

/// Builds, links and runs.
pub fn run<O: Sink>(
    alloc: Global,
    loaded: &Loaded,
    ticks: u64,
    out: &mut O,
) -> Result<Reply, ReplyError>
    requires { Builds loaded.now }
    ensures { GivesResult (AnswersRun (run_with loaded.now ticks)) (O.state out.old) (O.state out.new) result }
{
    let image = build(alloc, loaded)?;
    let mut machine = Machine::new(alloc, image)?;
    match machine.run(alloc, ticks, out) {
        Ok(end) => Ok(ended(alloc, end, machine)?),
        Err(RunStop::Write) => Err(ReplyError::NotWritten),
        Err(RunStop::Memory) => Err(ReplyError::Memory),
    }
}
