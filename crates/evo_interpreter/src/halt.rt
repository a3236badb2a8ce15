//! Why an instruction was not done.

ghost use Rattle.std.specs.Prelude.{◌≡◌};
ghost use Rattle.evo_interpreter.specs.declared.halt.Halt.TheVariants as halt;

use evo_execution::{End, Stop};
use std::alloc::AllocError;

/// Why an instruction was not done.
#[derive(Clone, Copy, Debug, PartialEq, Eq)]
pub enum Halt {
    /// The run ends.
    Stop(Stop),
    /// An allocation failed.
    Memory,
}

impl From<AllocError> for Halt {
    ghost from_gives = { λ _ e. e ≡ halt.Memory };

    fn from(_: AllocError) -> Self {
        Halt::Memory
    }
}

impl From<Stop> for Halt {
    ghost from_gives = { λ stop e. e ≡ halt.Stop stop };

    fn from(stop: Stop) -> Self {
        Halt::Stop(stop)
    }
}

/// What an instruction did: the run goes on, goes on with a line to write, or ends.
#[derive(Drop)]
pub enum Effect {
    Goes,
    Writes(String),
    Ends(End),
}
