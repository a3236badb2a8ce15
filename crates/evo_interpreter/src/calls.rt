//! Entering and leaving functions.

ghost use Rattle.std.specs.Prelude.{◌≡◌};
ghost use Rattle.evo_code.specs.declared.instr.Instr.TheVariants as Op;
ghost use Rattle.evo_execution.specs.Execution.{act, give, result_of};
ghost use Rattle.evo_interpreter.specs.States.{state_of, Ran};

use crate::halt::{Effect, Halt};
use crate::operands::read;
use crate::state::{Frame, State};
use crate::words::Words;
use evo_code::{Image, Layout, Operand, value};
use evo_execution::{End, MachineFault, Stop};
use std::alloc::Global;

/// Leaves the function. From the first frame it ends the run.
pub fn do_return(
    alloc: Global,
    image: &Image,
    state: &mut State,
    from: &Operand,
    size: &Layout,
) -> Result<Effect, Halt>
    ensures { Ran result state.new (act image.now (state_of state.old) (Op.Return from.now size.now)) }
{
    let count = value(size, &image.sizes);
    let words = read(alloc, image, state, from, count)?;
    if count != result_words(image, state) {
        return Err(Halt::Stop(Stop::Fault(MachineFault::Size)));
    }
    give(state, words)
}

// The words of this function's result.
fn result_words(image: &Image, state: &State) -> u64
    ensures { result ≡ result_of image.now (state_of state.now) }
{
    match image.functions.as_slice().get(state.top.function as usize) {
        Some(function) => value(&function.result, &image.sizes),
        None => 0,
    }
}

// Gives words to the frame below.
fn give(state: &mut State, words: Words) -> Result<Effect, Halt>
    ensures { Ran result state.new (give (state_of state.old) words (state_of state.old).below) }
{
    let Some(mut caller) = state.below.pop() else {
        return Ok(Effect::Ends(End::Done));
    };
    if !caller.words.write(state.top.to, words) {
        return Err(Halt::Stop(Stop::Fault(MachineFault::Range)));
    }
    let Frame { words, .. } = std::mem::replace(&mut state.top, caller);
    state.below.retire(words);
    Ok(Effect::Goes)
}
