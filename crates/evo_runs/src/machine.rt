//! A machine, with its image and what came of its run.

ghost use Rattle.std.specs.Prelude.{◌≡◌, ◌⊎◌, true, None, Some, Err, IfOk, IfSome};
ghost use Rattle.evo_execution.specs.Execution.{Run, Executes, Reaches};
ghost use Rattle.evo_execution.specs.Loaded.{IsLoaded};
ghost use Rattle.evo_interpreter.specs.States.{state_of};
ghost use Rattle.evo_runs.specs.declared.machine.RunStop.TheVariants.{Memory, Write};
ghost use Rattle.evo_runs.specs.Quick.{plan_of};
ghost use Rattle.evo_runs.specs.Runs.{RunsResult, end_of};

use crate::plan::plans;
use crate::quick::Quick;
use crate::start::start;
use crate::steps::do_steps;
use evo_base::{Failed, List, Sink};
use evo_code::Image;
use evo_execution::End;
use evo_interpreter::{Effect, State};
use std::alloc::{AllocError, Global};
use std::marker::Model;

/// Why a run stopped short of its end.
#[derive(Clone, Copy, Debug, PartialEq, Eq)]
pub enum RunStop {
    /// The sink did not take a line.
    Write,
    /// An allocation failed.
    Memory,
}

impl From<AllocError> for RunStop {
    ghost from_gives = { λ _ e. e ≡ Memory };

    fn from(_: AllocError) -> Self {
        RunStop::Memory
    }
}

impl From<Failed> for RunStop {
    ghost from_gives = { λ _ e. e ≡ Write };

    fn from(_: Failed) -> Self {
        RunStop::Write
    }
}

/// A machine with its image, which the load check lets through. It runs once, and keeps how its run came out.
#[derive(Drop)]
pub struct Machine {
    image: Image,
    plans: List<List<Quick>>,
    state: State,
    finished: Option<Result<End, RunStop>>,
}

impl Model for Machine {
    ghost use Rattle.std.specs.Prelude.{◌≡◌, None};
    ghost use Rattle.evo_execution.specs.Loaded.{IsLoaded};
    ghost use Rattle.evo_runs.specs.Quick.{plan_of};
    ghost use Rattle.evo_runs.specs.Starts.{StartsAt};
    ghost use Rattle.evo_runs.specs.Runs.{MachineState};
    ghost use Rattle.evo_code.specs.contracts.layout.Layout as layout;
    ghost use Rattle.std.specs.Coded.{codes};

    ghost Value = { MachineState };

    ghost coded = { Prim.hlevel (codes, layout.the_row.coded) };

    ghost view = { λ m. record { image = m.image; finished = m.finished } };

    ghost invariant = { λ m. IsLoaded m.image × (m.plans ≡ plan_of m.image) × (m.finished ≡ None → StartsAt m.image m.state) };
}

impl Machine {
    ghost use Rattle.evo_runs.specs.Runs.{MachineState};

    /// A machine that stands where a run of this image begins, with the first frame made.
    pub fn new(alloc: Global, image: Image) -> Result<Machine, AllocError>
        requires { IsLoaded image }
        ensures { IfOk result (λ m. m ≡ record { image = image; finished = None }) }
    {
        let plans = plans(alloc, &image)?;
        let state = start(alloc, &image)?;
        Ok(Machine {
            image,
            plans,
            state,
            finished: None,
        })
    }

    /// Runs the image with so many ticks, and writes each line to the sink as one piece. `Write` is the answer at the first line that
    /// the sink does not take, and `Memory` where an allocation fails. A machine that has run answers the same again and writes nothing.
    pub fn run<S: Sink>(&mut self, alloc: Global, ticks: u64, out: &mut S) -> Result<End, RunStop>
        ensures runs { self.old.finished ≡ None → (run : Run) → Executes self.old.image ticks run →
            RunsResult run (S.state out.old) (S.state out.new) result }
        ensures failed { self.old.finished ≡ None → result ≡ Err Write → (S.state out.new).failed ≡ true }
        ensures unfailed { (S.state out.new).failed ≡ true → ((S.state out.old).failed ≡ true) ⊎ (result ≡ Err Write) }
        ensures again { IfSome self.old.finished (λ before. (result ≡ before) × (out.new ≡ out.old)) }
        ensures image { self.new.image ≡ self.old.image }
        ensures finished { self.new.finished ≡ Some result }
    {
        if let Some(result) = self.finished {
            return result;
        }
        self.state.ticks = ticks;
        let result = run_from(alloc, &self.image, &self.plans, &mut self.state, out);
        self.finished = Some(result);
        result
    }

    /// How the run ended, where it came to an end.
    pub fn end(&self) -> Option<End>
        ensures { result ≡ end_of self.now.finished }
    {
        match self.finished {
            Some(Ok(end)) => Some(end),
            _ => None,
        }
    }
}

// Runs from a state to its end.
fn run_from<S: Sink>(
    alloc: Global,
    image: &Image,
    plans: &List<List<Quick>>,
    state: &mut State,
    out: &mut S,
) -> Result<End, RunStop>
    requires loads { IsLoaded image.now }
    requires plans { plans.now ≡ plan_of image.now }
    ensures runs { (run : Run) → Reaches image.now (state_of state.old) run →
        RunsResult run (S.state out.old) (S.state out.new) result }
    ensures failed { result ≡ Err Write → (S.state out.new).failed ≡ true }
    ensures unfailed { (S.state out.new).failed ≡ true → ((S.state out.old).failed ≡ true) ⊎ (result ≡ Err Write) }
{
    loop {
        match do_steps(alloc, image, plans, state)? {
            Effect::Goes => {}
            Effect::Writes(line) => out.write(line.as_bytes())?,
            Effect::Ends(end) => return Ok(end),
        }
    }
}
