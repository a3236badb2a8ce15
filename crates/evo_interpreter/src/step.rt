//! One step of a run.

ghost use Rattle.std.specs.Prelude.{◌≡◌, ◌+◌, ◌<◌, ◌^◌, true, IfOk};
ghost use Rattle.evo_execution.specs.Execution.{act, act_at, instr_of, step};
ghost use Rattle.evo_interpreter.specs.States.{state_of, Does, Ran};
ghost use Rattle.evo_code.specs.Groups.{enters, looks_into};

use crate::calls::do_return;
use crate::enter::{do_call, do_dispatch, do_super, do_witness};
use crate::halt::{Effect, Halt};
use crate::objects::{do_box, do_load, do_new, do_store, do_unbox};
use crate::plain::{
    do_join, do_jump, do_math, do_move, do_neg, do_not, do_order, do_put, do_same, do_table,
    do_text, do_tick, do_trap, do_unless,
};
use crate::print::do_print;
use crate::state::State;
use crate::strings::do_equal;
use crate::tables::do_sub;
use crate::word::Word;
use evo_code::{Image, Instr};
use evo_execution::{End, MachineFault, Stop};
use std::alloc::{AllocError, Global};

// Does an instruction that enters a function.
fn do_enter(alloc: Global, image: &Image, state: &mut State, instr: &Instr) -> Result<Effect, Halt>
    requires room { state.old.top.at + 1 < 2 ^ 64 }
    requires enters { enters instr.now ≡ true }
    ensures { Ran result state.new (act image.now (state_of state.old) instr.now) }
{
    match instr {
        Instr::Call {
            function,
            args,
            to,
            size,
        } => do_call(alloc, image, state, function, args, to, size),
        Instr::Dispatch {
            method,
            args,
            to,
            size,
        } => do_dispatch(alloc, image, state, method, args, to, size),
        Instr::Super {
            class,
            method,
            args,
            to,
            size,
        } => do_super(alloc, image, state, class, method, args, to, size),
        Instr::Witness {
            table,
            requirement,
            args,
            to,
            size,
        } => do_witness(alloc, image, state, table, requirement, args, to, size),
        _ => unreachable!(),
    }
}

// Does an instruction that takes from an object, a box or a table.
fn do_object(alloc: Global, image: &Image, state: &mut State, instr: &Instr) -> Result<Effect, Halt>
    requires room { state.old.top.at + 1 < 2 ^ 64 }
    requires looks { looks_into instr.now ≡ true }
    ensures { Ran result state.new (act image.now (state_of state.old) instr.now) }
{
    match instr {
        Instr::New { to, class } => do_new(alloc, image, state, to, class),
        Instr::Load {
            to,
            object,
            offset,
            size,
        } => do_load(alloc, image, state, to, object, offset, size),
        Instr::Store {
            object,
            offset,
            from,
            size,
        } => do_store(alloc, image, state, object, offset, from, size),
        Instr::Box { to, from, size } => do_box(alloc, image, state, to, from, size),
        Instr::Unbox { to, from, size } => do_unbox(alloc, image, state, to, from, size),
        Instr::Table { to, conformance } => do_table(alloc, image, state, to, conformance),
        Instr::Sub { to, table, name } => do_sub(alloc, image, state, to, table, name),
        _ => unreachable!(),
    }
}

// Does an instruction.
fn do_instr(alloc: Global, image: &Image, state: &mut State, instr: &Instr) -> Result<Effect, Halt>
    requires { state.old.top.at + 1 < 2 ^ 64 }
    ensures { Ran result state.new (act image.now (state_of state.old) instr.now) }
{
    match instr {
        Instr::Tick => do_tick(image, state),
        Instr::Int { to, value } => do_put(image, state, to, Word::Int(*value)),
        Instr::Bool { to, value } => do_put(image, state, to, Word::Bool(*value)),
        Instr::Text { to, text } => do_text(alloc, image, state, to, text),
        Instr::Move { to, from, size } => do_move(alloc, image, state, to, from, size),
        Instr::Jump { target } => do_jump(image, state, *target),
        Instr::Unless { test, target } => do_unless(image, state, test, *target),
        Instr::Math {
            operator,
            to,
            left,
            right,
        } => do_math(image, state, *operator, to, left, right),
        Instr::Neg { to, from } => do_neg(image, state, to, from),
        Instr::Order {
            operator,
            to,
            left,
            right,
        } => do_order(image, state, *operator, to, left, right),
        Instr::Equal { to, left, right } => do_equal(alloc, image, state, to, left, right),
        Instr::Same { to, left, right } => do_same(image, state, to, left, right),
        Instr::Not { to, from } => do_not(image, state, to, from),
        Instr::Join { to, left, right } => do_join(alloc, image, state, to, left, right),
        Instr::Return { from, size } => do_return(alloc, image, state, from, size),
        Instr::Print { items } => do_print(alloc, image, state, items),
        Instr::Trap { number } => do_trap(image, state, *number),
        Instr::Call { .. } | Instr::Dispatch { .. } | Instr::Super { .. } | Instr::Witness { .. } =>
            do_enter(alloc, image, state, instr),
        _ => do_object(alloc, image, state, instr),
    }
}

// Does the instruction at which the run stands.
fn do_next(alloc: Global, image: &Image, state: &mut State) -> Result<Effect, Halt>
    ensures { Ran result state.new (act_at image.now (state_of state.old) (instr_of image.now (state_of state.old))) }
{
    let Some(function) = image.functions.as_slice().get(state.top.function as usize) else {
        return Err(Halt::Stop(Stop::Fault(MachineFault::Range)));
    };
    let Some(instr) = function.code.as_slice().get(state.top.at as usize) else {
        return Err(Halt::Stop(Stop::Fault(MachineFault::Range)));
    };
    do_instr(alloc, image, state, instr)
}

/// One step: the instruction at which the run stands, or the end of the run where it cannot be done. After an
/// answer that the run ends, or that an allocation failed, nothing is said of the state.
pub fn do_step(alloc: Global, image: &Image, state: &mut State) -> Result<Effect, AllocError>
    ensures { IfOk result (λ effect. Does effect state.new (step image.now (state_of state.old))) }
{
    let function = state.top.function;
    let at = state.top.at;
    match do_next(alloc, image, state) {
        Ok(effect) => Ok(effect),
        Err(Halt::Stop(Stop::Fault(kind))) => Ok(Effect::Ends(End::Fault { kind, function, at })),
        Err(Halt::Stop(Stop::Trap(kind))) => Ok(Effect::Ends(End::Trap(kind))),
        Err(Halt::Memory) => Err(AllocError),
    }
}
