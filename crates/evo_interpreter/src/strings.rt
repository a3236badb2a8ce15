//! The instructions that compare and print.

ghost use Rattle.std.specs.Prelude.{◌≡◌, ◌+◌, ◌<◌, ◌^◌, IfOk, MatchResult};
ghost use Rattle.std.specs.Str.{bytes_eq};
ghost use Rattle.evo_code.specs.declared.instr.Instr.TheVariants as Op;
ghost use Rattle.evo_execution.specs.Execution.{act};
ghost use Rattle.evo_execution.specs.Words.{equal, same_text, shown, Got, Stops};
ghost use Rattle.evo_interpreter.specs.States.{state_of, Answers, Ran};
ghost use Rattle.evo_interpreter.specs.Words.{word_of};

use crate::halt::{Effect, Halt};
use crate::operands::word;
use crate::plain::do_put;
use crate::state::State;
use crate::word::Word;
use evo_base::Name;
use evo_code::{Image, Operand};
use evo_execution::{MachineFault, Stop};
use std::alloc::{AllocError, Global};
use unicode_normalization::to_nfd;

// Whether two strings are canonically equivalent.
fn same_text(alloc: Global, left: &Name, right: &Name) -> Result<bool, AllocError>
    ensures { IfOk result (λ same. same ≡ same_text left.now right.now) }
{
    let left = to_nfd(alloc, left.as_str())?;
    let right = to_nfd(alloc, right.as_str())?;
    Ok(left.as_str() == right.as_str())
}

// Whether two words of one kind are equal.
fn equal(alloc: Global, left: &Word, right: &Word) -> Result<bool, Halt>
    ensures { Answers result (equal (word_of left.now) (word_of right.now)) }
{
    match left {
        Word::Int(x) => match right {
            Word::Int(y) => Ok(*x == *y),
            _ => Err(Halt::Stop(Stop::Fault(MachineFault::Word))),
        },
        Word::Bool(x) => match right {
            Word::Bool(y) => Ok(*x == *y),
            _ => Err(Halt::Stop(Stop::Fault(MachineFault::Word))),
        },
        Word::Text(x) => match right {
            Word::Text(y) => Ok(same_text(alloc, x.name(), y.name())?),
            _ => Err(Halt::Stop(Stop::Fault(MachineFault::Word))),
        },
        _ => Err(Halt::Stop(Stop::Fault(MachineFault::Word))),
    }
}

/// Puts whether two words are equal.
pub fn do_equal(
    alloc: Global,
    image: &Image,
    state: &mut State,
    to: &Operand,
    left: &Operand,
    right: &Operand,
) -> Result<Effect, Halt>
    requires { state.old.top.at + 1 < 2 ^ 64 }
    ensures { Ran result state.new (act image.now (state_of state.old) (Op.Equal to.now left.now right.now)) }
{
    let left = word(image, state, left)?;
    let right = word(image, state, right)?;
    let same = equal(alloc, left, right)?;
    do_put(image, state, to, Word::Bool(same))
}
