//! The instructions that stay in their function, and take nothing from an object.

ghost use Rattle.std.specs.Prelude.{◌≡◌, ◌+◌, ◌++◌, ◌<◌, ◌^◌, IfOk};
ghost use Rattle.evo_code.specs.declared.instr.Instr.TheVariants as Op;
ghost use Rattle.evo_execution.specs.Execution.{act, onwards, put_word};
ghost use Rattle.evo_interpreter.specs.States.{state_of, Ran};
ghost use Rattle.evo_interpreter.specs.Words.{word_of};

use crate::halt::{Effect, Halt};
use crate::integers::{computed, negate, ordered};
use crate::operands::{integer, put, put_all, read, reference, text, truth};
use crate::state::State;
use crate::text::Text;
use crate::word::Word;
use evo_base::Name;
use evo_code::{Image, Layout, MathOperator, Operand, OrderOperator, TrapNumber, value};
use evo_execution::{End, Stop, TrapKind};
use std::alloc::{AllocError, Global};

/// Takes a tick.
pub fn do_tick(image: &Image, state: &mut State) -> Result<Effect, Halt>
    requires { state.old.top.at + 1 < 2 ^ 64 }
    ensures { Ran result state.new (act image.now (state_of state.old) Op.Tick) }
{
    if state.ticks == 0 {
        return Ok(Effect::Ends(End::Budget));
    }
    state.ticks -= 1;
    state.top.at += 1;
    Ok(Effect::Goes)
}

/// Puts a word.
pub fn do_put(image: &Image, state: &mut State, to: &Operand, word: Word) -> Result<Effect, Halt>
    requires { state.old.top.at + 1 < 2 ^ 64 }
    ensures { Ran result state.new (onwards (put_word image.now (state_of state.old) to.now (word_of word))) }
{
    put(image, state, to, word)?;
    state.top.at += 1;
    Ok(Effect::Goes)
}

/// Puts a string.
pub fn do_text(
    alloc: Global,
    image: &Image,
    state: &mut State,
    to: &Operand,
    text: &Name,
) -> Result<Effect, Halt>
    requires { state.old.top.at + 1 < 2 ^ 64 }
    ensures { Ran result state.new (act image.now (state_of state.old) (Op.Text to.now text.now)) }
{
    let text = Text::new(alloc, text.copy(alloc)?)?;
    do_put(image, state, to, Word::Text(text))
}

/// Puts the table of a conformance.
pub fn do_table(
    alloc: Global,
    image: &Image,
    state: &mut State,
    to: &Operand,
    conformance: &Name,
) -> Result<Effect, Halt>
    requires { state.old.top.at + 1 < 2 ^ 64 }
    ensures { Ran result state.new (act image.now (state_of state.old) (Op.Table to.now conformance.now)) }
{
    let conformance = Text::new(alloc, conformance.copy(alloc)?)?;
    do_put(image, state, to, Word::Table(conformance))
}

/// Copies words.
pub fn do_move(
    alloc: Global,
    image: &Image,
    state: &mut State,
    to: &Operand,
    from: &Operand,
    size: &Layout,
) -> Result<Effect, Halt>
    requires { state.old.top.at + 1 < 2 ^ 64 }
    ensures { Ran result state.new (act image.now (state_of state.old) (Op.Move to.now from.now size.now)) }
{
    let words = read(alloc, image, state, from, value(size, &image.sizes))?;
    put_all(image, state, to, words)?;
    state.top.at += 1;
    Ok(Effect::Goes)
}

/// Goes to another instruction.
pub fn do_jump(image: &Image, state: &mut State, target: u64) -> Result<Effect, Halt>
    ensures { Ran result state.new (act image.now (state_of state.old) (Op.Jump target)) }
{
    state.top.at = target;
    Ok(Effect::Goes)
}

/// Goes to another instruction where the test is false.
pub fn do_unless(
    image: &Image,
    state: &mut State,
    test: &Operand,
    target: u64,
) -> Result<Effect, Halt>
    requires { state.old.top.at + 1 < 2 ^ 64 }
    ensures { Ran result state.new (act image.now (state_of state.old) (Op.Unless test.now target)) }
{
    if truth(image, state, test)? {
        state.top.at += 1;
    } else {
        state.top.at = target;
    }
    Ok(Effect::Goes)
}

/// Puts what an operator makes of two integers.
pub fn do_math(
    image: &Image,
    state: &mut State,
    operator: MathOperator,
    to: &Operand,
    left: &Operand,
    right: &Operand,
) -> Result<Effect, Halt>
    requires { state.old.top.at + 1 < 2 ^ 64 }
    ensures { Ran result state.new (act image.now (state_of state.old) (Op.Math operator to.now left.now right.now)) }
{
    let left = integer(image, state, left)?;
    let right = integer(image, state, right)?;
    let number = computed(operator, left, right)?;
    do_put(image, state, to, Word::Int(number))
}

/// Puts the integer with the other sign.
pub fn do_neg(
    image: &Image,
    state: &mut State,
    to: &Operand,
    from: &Operand,
) -> Result<Effect, Halt>
    requires { state.old.top.at + 1 < 2 ^ 64 }
    ensures { Ran result state.new (act image.now (state_of state.old) (Op.Neg to.now from.now)) }
{
    let number = negate(integer(image, state, from)?)?;
    do_put(image, state, to, Word::Int(number))
}

/// Puts whether two integers stand in an order.
pub fn do_order(
    image: &Image,
    state: &mut State,
    operator: OrderOperator,
    to: &Operand,
    left: &Operand,
    right: &Operand,
) -> Result<Effect, Halt>
    requires { state.old.top.at + 1 < 2 ^ 64 }
    ensures { Ran result state.new (act image.now (state_of state.old) (Op.Order operator to.now left.now right.now)) }
{
    let left = integer(image, state, left)?;
    let right = integer(image, state, right)?;
    do_put(image, state, to, Word::Bool(ordered(operator, left, right)))
}

/// Puts whether two references are to one object.
pub fn do_same(
    image: &Image,
    state: &mut State,
    to: &Operand,
    left: &Operand,
    right: &Operand,
) -> Result<Effect, Halt>
    requires { state.old.top.at + 1 < 2 ^ 64 }
    ensures { Ran result state.new (act image.now (state_of state.old) (Op.Same to.now left.now right.now)) }
{
    let left = reference(image, state, left)?;
    let right = reference(image, state, right)?;
    do_put(image, state, to, Word::Bool(left == right))
}

/// Puts the other truth value.
pub fn do_not(
    image: &Image,
    state: &mut State,
    to: &Operand,
    from: &Operand,
) -> Result<Effect, Halt>
    requires { state.old.top.at + 1 < 2 ^ 64 }
    ensures { Ran result state.new (act image.now (state_of state.old) (Op.Not to.now from.now)) }
{
    let test = truth(image, state, from)?;
    do_put(image, state, to, Word::Bool(!test))
}

// Two strings, one behind the other.
fn joined(alloc: Global, left: &Name, right: &Name) -> Result<Name, AllocError>
    ensures { IfOk result (λ name. name ≡ left.now ++ right.now) }
{
    let mut text = String::new(alloc);
    text.push_str(left.as_str())?;
    text.push_str(right.as_str())?;
    let _utf8 = text.as_str();
    Ok(Name::from_vec(text.into_bytes()))
}

/// Puts two strings, one behind the other.
pub fn do_join(
    alloc: Global,
    image: &Image,
    state: &mut State,
    to: &Operand,
    left: &Operand,
    right: &Operand,
) -> Result<Effect, Halt>
    requires { state.old.top.at + 1 < 2 ^ 64 }
    ensures { Ran result state.new (act image.now (state_of state.old) (Op.Join to.now left.now right.now)) }
{
    let left = text(image, state, left)?;
    let right = text(image, state, right)?;
    let both = Text::new(alloc, joined(alloc, left, right)?)?;
    do_put(image, state, to, Word::Text(both))
}

/// Ends the run.
pub fn do_trap(image: &Image, state: &mut State, number: TrapNumber) -> Result<Effect, Halt>
    ensures { Ran result state.new (act image.now (state_of state.old) (Op.Trap number)) }
{
    match number {
        TrapNumber::Precondition => Err(Halt::Stop(Stop::Trap(TrapKind::Precondition))),
        TrapNumber::Fatal => Err(Halt::Stop(Stop::Trap(TrapKind::Fatal))),
    }
}
