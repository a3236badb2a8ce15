//! The instruction that prints.

ghost use Rattle.std.specs.Prelude.{◌≡◌, ◌+◌, ◌<◌, ◌^◌, string_bytes};
ghost use Rattle.evo_code.specs.declared.instr.Instr.TheVariants as Op;
ghost use Rattle.evo_execution.specs.Execution.{act, texts};
ghost use Rattle.evo_execution.specs.Words.{and_then, shown, line_of, Got};
ghost use Rattle.evo_interpreter.specs.Lines.{behind};
ghost use Rattle.evo_interpreter.specs.States.{state_of, Ran, Adds};
ghost use Rattle.evo_interpreter.specs.Words.{word_of};

use crate::halt::{Effect, Halt};
use crate::operands::word;
use crate::state::State;
use crate::word::Word;
use evo_base::List;
use evo_code::{Image, Operand};
use evo_execution::{MachineFault, Stop};
use std::alloc::Global;

// Puts the text of a word at the end of a line.
fn show(alloc: Global, word: &Word, line: &mut String) -> Result<(), Halt>
    ensures { Adds result (string_bytes line.old) (string_bytes line.new) (shown (word_of word.now)) }
{
    match word {
        Word::Int(number) => Ok(line.push_str(&format!(in alloc; "{number}")?)?),
        Word::Bool(true) => Ok(line.push_str("true")?),
        Word::Bool(false) => Ok(line.push_str("false")?),
        Word::Text(text) => Ok(line.push_str(text.name().as_str())?),
        _ => Err(Halt::Stop(Stop::Fault(MachineFault::Word))),
    }
}

// Puts words behind those of a line, and ends it.
fn show_rest(
    alloc: Global,
    image: &Image,
    state: &State,
    items: &[Operand],
    line: &mut String,
) -> Result<(), Halt>
    ensures { Adds result (string_bytes line.old) (string_bytes line.new) (and_then (texts image.now (state_of state.now) items.now) (λ ts. Got (behind ts))) }
{
    let Some((item, more)) = items.split_first() else {
        return Ok(line.push('\n')?);
    };
    line.push(' ')?;
    show(alloc, word(image, state, item)?, line)?;
    show_rest(alloc, image, state, more, line)
}

// Puts words into a line, and ends it.
fn show_line(
    alloc: Global,
    image: &Image,
    state: &State,
    items: &[Operand],
    line: &mut String,
) -> Result<(), Halt>
    ensures { Adds result (string_bytes line.old) (string_bytes line.new) (and_then (texts image.now (state_of state.now) items.now) (λ ts. Got (line_of ts))) }
{
    let Some((item, more)) = items.split_first() else {
        return Ok(line.push('\n')?);
    };
    show(alloc, word(image, state, item)?, line)?;
    show_rest(alloc, image, state, more, line)
}

/// Writes words as one line.
pub fn do_print(
    alloc: Global,
    image: &Image,
    state: &mut State,
    items: &List<Operand>,
) -> Result<Effect, Halt>
    requires { state.old.top.at + 1 < 2 ^ 64 }
    ensures { Ran result state.new (act image.now (state_of state.old) (Op.Print items.now)) }
{
    let mut line = String::new(alloc);
    show_line(alloc, image, state, items.as_slice(), &mut line)?;
    state.top.at += 1;
    Ok(Effect::Writes(line))
}
