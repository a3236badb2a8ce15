//! Entering functions.

ghost use Rattle.std.specs.Prelude.{◌≡◌, ◌+◌, ◌<◌, ◌^◌, ◌∷◌, None, MatchResult, OnOk};
ghost use Rattle.evo_code.specs.declared.instr.Instr.TheVariants as Op;
ghost use Rattle.evo_execution.specs.Execution.{argument_words, arguments_words, words_from, passed, enter, enter_function, act, frame_of, next, object_at, receiver, Goes};
ghost use Rattle.evo_execution.specs.Tables.{function_number, target_named, code_at, entry_of, method_of, super_method_of, class_named};
ghost use Rattle.evo_execution.specs.Words.{and_then, Got, Stops};
ghost use Rattle.evo_interpreter.specs.Integers.{answer_of};
ghost use Rattle.evo_interpreter.specs.States.{state_of, object_of, entered, Answers, Ran, Adds};

use crate::halt::{Effect, Halt};
use crate::operands::{address, read, reference, room, table};
use crate::state::{Frame, Object, State};
use crate::text::Text;
use crate::word::Word;
use crate::words::Words;
use evo_base::List;
use evo_code::{
    Arg, Entry, Function, Image, Layout, Operand, Symbol, Target, item_named, number_named, value,
};
use evo_execution::{MachineFault, Stop};
use std::alloc::{AllocError, Global};

// The words of an argument, which are as many as its slot has.
fn argument(
    alloc: Global,
    image: &Image,
    state: &State,
    arg: &Arg,
    slot: &Layout,
) -> Result<Words, Halt>
    ensures { Answers result (argument_words image.now (state_of state.now) arg.now slot.now) }
{
    let count = value(&arg.layout, &image.sizes);
    let words = read(alloc, image, state, &arg.place, count)?;
    if count != value(slot, &image.sizes) {
        return Err(Halt::Stop(Stop::Fault(MachineFault::Size)));
    }
    Ok(words)
}

// Puts the words of arguments at the end, each as many as its slot has.
fn arguments(
    alloc: Global,
    image: &Image,
    state: &State,
    args: &[Arg],
    slots: &[Layout],
    out: &mut Words,
) -> Result<(), Halt>
    ensures { Adds result out.old out.new (arguments_words image.now (state_of state.now) args.now slots.now) }
{
    let Some((arg, more_args)) = args.split_first() else {
        return Ok(());
    };
    let Some((slot, more_slots)) = slots.split_first() else {
        return Err(Halt::Stop(Stop::Fault(MachineFault::Size)));
    };
    let words = argument(alloc, image, state, arg, slot)?;
    out.extend(words)?;
    arguments(alloc, image, state, more_args, more_slots, out)
}

// The words of a table, where one is passed before the arguments, and of the arguments.
fn words_from(
    alloc: Global,
    image: &Image,
    state: &State,
    first: Option<Text>,
    args: &[Arg],
    slots: &[Layout],
    out: &mut Words,
) -> Result<(), Halt>
    ensures { Adds result out.old out.new (words_from image.now (state_of state.now) first args.now slots.now) }
{
    let Some(table) = first else {
        return arguments(alloc, image, state, args, slots, out);
    };
    let Some((slot, more)) = slots.split_first() else {
        return Err(Halt::Stop(Stop::Fault(MachineFault::Size)));
    };
    if value(slot, &image.sizes) != 1 {
        return Err(Halt::Stop(Stop::Fault(MachineFault::Size)));
    }
    out.push(Word::Table(table))?;
    arguments(alloc, image, state, args, more, out)
}

/// Puts a frame of this function on top, whose first words are these, and which has so many.
pub fn push_frame(
    state: &mut State,
    number: u64,
    mut words: Words,
    room: u64,
    to: u64,
) -> Result<(), AllocError>
    requires { state.old.top.at + 1 < 2 ^ 64 }
    ensures { OnOk result (state_of state.new ≡ entered (state_of state.old) number words room to) }
{
    words.fill(room.saturating_sub(words.len()))?;
    let frame = Frame {
        function: number,
        at: 0,
        words,
        to,
    };
    let mut caller = std::mem::replace(&mut state.top, frame);
    caller.at += 1;
    state.below.push(caller)?;
    Ok(())
}

// Puts a frame of this function on top, whose first words are these.
fn push_function(
    image: &Image,
    state: &mut State,
    number: u64,
    function: &Function,
    words: Words,
    to: u64,
) -> Result<Effect, Halt>
    requires { state.old.top.at + 1 < 2 ^ 64 }
    ensures { Ran result state.new (Got (Goes (record (state_of state.old) { top = frame_of image.now number function.now words to; below = (next (state_of state.old)).top ∷ (state_of state.old).below }))) }
{
    let room = room(function.slots.as_slice(), &image.sizes);
    push_frame(state, number, words, room, to)?;
    Ok(Effect::Goes)
}

// How many arguments a table that is passed is.
fn passed(first: &Option<Text>) -> u64
    ensures { result ≡ passed first.now }
{
    match first {
        Some(_) => 1,
        None => 0,
    }
}

// Enters this function with a table, where one is passed, and arguments.
fn enter_function(
    alloc: Global,
    image: &Image,
    state: &mut State,
    number: u64,
    function: &Function,
    first: Option<Text>,
    args: &[Arg],
    to: &Operand,
    size: &Layout,
) -> Result<Effect, Halt>
    requires { state.old.top.at + 1 < 2 ^ 64 }
    ensures { Ran result state.new (enter_function image.now (state_of state.old) number function.now first args.now to.now size.now) }
{
    if passed(&first) + args.len() as u64 != function.params {
        return Err(Halt::Stop(Stop::Fault(MachineFault::Size)));
    }
    let mut words = state.fresh(alloc);
    words_from(
        alloc,
        image,
        state,
        first,
        args,
        function.slots.as_slice(),
        &mut words,
    )?;
    let count = value(size, &image.sizes);
    if count != value(&function.result, &image.sizes) {
        return Err(Halt::Stop(Stop::Fault(MachineFault::Size)));
    }
    let at = address(image, state, to);
    if !state.top.words.has(at, count) {
        return Err(Halt::Stop(Stop::Fault(MachineFault::Range)));
    }
    push_function(image, state, number, function, words, at)
}

// Enters the function of this number.
fn enter(
    alloc: Global,
    image: &Image,
    state: &mut State,
    number: u64,
    first: Option<Text>,
    args: &[Arg],
    to: &Operand,
    size: &Layout,
) -> Result<Effect, Halt>
    requires { state.old.top.at + 1 < 2 ^ 64 }
    ensures { Ran result state.new (enter image.now (state_of state.old) number first args.now to.now size.now) }
{
    let Some(function) = image.functions.as_slice().get(number as usize) else {
        return Err(Halt::Stop(Stop::Fault(MachineFault::Entry)));
    };
    enter_function(alloc, image, state, number, function, first, args, to, size)
}

// The number of the function with this symbol.
fn function_number(image: &Image, symbol: &Symbol) -> Option<u64>
    ensures { result ≡ function_number image.now symbol.now }
{
    number_named(image.functions.as_slice(), symbol.as_slice())
}

/// Enters the function of this symbol.
pub fn do_call(
    alloc: Global,
    image: &Image,
    state: &mut State,
    function: &Symbol,
    args: &List<Arg>,
    to: &Operand,
    size: &Layout,
) -> Result<Effect, Halt>
    requires { state.old.top.at + 1 < 2 ^ 64 }
    ensures { Ran result state.new (act image.now (state_of state.old) (Op.Call function.now args.now to.now size.now)) }
{
    let Some(number) = function_number(image, function) else {
        return Err(Halt::Stop(Stop::Fault(MachineFault::Entry)));
    };
    enter(alloc, image, state, number, None, args.as_slice(), to, size)
}

// The function that a class has for a method.
fn method_of(image: &Image, class: &Symbol, method: &Symbol) -> Result<u64, Stop>
    ensures { answer_of result ≡ method_of image.now class.now method.now }
{
    let Some(table) = item_named(&image.classes, class.as_slice()) else {
        return Err(Stop::Fault(MachineFault::Entry));
    };
    code_named(&table.entries, method)
}

// The function to which the entry of this name leads.
fn code_named(entries: &List<Entry>, name: &Symbol) -> Result<u64, Stop>
    ensures { answer_of result ≡ code_at (target_named entries.now name.now) }
{
    let Some(entry) = item_named(entries, name.as_slice()) else {
        return Err(Stop::Fault(MachineFault::Entry));
    };
    match entry.target {
        Target::Code(number) => Ok(number),
        Target::Table(_) => Err(Stop::Fault(MachineFault::Entry)),
    }
}

// The function that the superclass of a class has for a method.
fn super_method_of(image: &Image, class: &Symbol, method: &Symbol) -> Result<u64, Stop>
    ensures { answer_of result ≡ super_method_of image.now class.now method.now }
{
    let Some(table) = item_named(&image.classes, class.as_slice()) else {
        return Err(Stop::Fault(MachineFault::Entry));
    };
    match &table.superclass {
        Some(above) => method_of(image, above, method),
        None => Err(Stop::Fault(MachineFault::Entry)),
    }
}

/// Enters the function that the superclass of this class has for a method.
pub fn do_super(
    alloc: Global,
    image: &Image,
    state: &mut State,
    class: &Symbol,
    method: &Symbol,
    args: &List<Arg>,
    to: &Operand,
    size: &Layout,
) -> Result<Effect, Halt>
    requires { state.old.top.at + 1 < 2 ^ 64 }
    ensures { Ran result state.new (act image.now (state_of state.old) (Op.Super class.now method.now args.now to.now size.now)) }
{
    let number = super_method_of(image, class, method)?;
    enter(alloc, image, state, number, None, args.as_slice(), to, size)
}

// The object of this number.
fn object_at(state: &State, number: u64) -> Result<&Object, Stop>
    ensures { MatchResult result (λ o. object_at (state_of state.now) number ≡ Got (object_of o.now)) (λ e. object_at (state_of state.now) number ≡ Stops e) }
{
    match state.objects.get(number as usize) {
        Some(object) => Ok(object),
        None => Err(Stop::Fault(MachineFault::Range)),
    }
}

// The object by whose class a call is dispatched.
fn receiver<'a>(image: &Image, state: &'a State, args: &[Arg]) -> Result<&'a Object, Stop>
    ensures { MatchResult result (λ o. receiver image.now (state_of state.now) args.now ≡ Got (object_of o.now)) (λ e. receiver image.now (state_of state.now) args.now ≡ Stops e) }
{
    let Some(arg) = args.first() else {
        return Err(Stop::Fault(MachineFault::Word));
    };
    if value(&arg.layout, &image.sizes) < 1 {
        return Err(Stop::Fault(MachineFault::Word));
    }
    let number = reference(image, state, &arg.place)?;
    object_at(state, number)
}

/// Enters the function that the class of the first argument has for a method.
pub fn do_dispatch(
    alloc: Global,
    image: &Image,
    state: &mut State,
    method: &Symbol,
    args: &List<Arg>,
    to: &Operand,
    size: &Layout,
) -> Result<Effect, Halt>
    requires { state.old.top.at + 1 < 2 ^ 64 }
    ensures { Ran result state.new (act image.now (state_of state.old) (Op.Dispatch method.now args.now to.now size.now)) }
{
    let object = receiver(image, state, args.as_slice())?;
    let number = method_of(image, object.class.name(), method)?;
    enter(alloc, image, state, number, None, args.as_slice(), to, size)
}

// The function to which the entry that a witness table has under a name leads.
fn witness_of(image: &Image, conformance: &Symbol, name: &Symbol) -> Result<u64, Stop>
    ensures { answer_of result ≡ and_then (entry_of image.now conformance.now name.now) code_at }
{
    let Some(table) = item_named(&image.conformances, conformance.as_slice()) else {
        return Err(Stop::Fault(MachineFault::Entry));
    };
    code_named(&table.entries, name)
}

/// Enters the function that a witness table has for a requirement, with the table before the arguments.
pub fn do_witness(
    alloc: Global,
    image: &Image,
    state: &mut State,
    table: &Operand,
    requirement: &Symbol,
    args: &List<Arg>,
    to: &Operand,
    size: &Layout,
) -> Result<Effect, Halt>
    requires { state.old.top.at + 1 < 2 ^ 64 }
    ensures { Ran result state.new (act image.now (state_of state.old) (Op.Witness table.now requirement.now args.now to.now size.now)) }
{
    let conformance = crate::operands::table(image, state, table)?;
    let number = witness_of(image, conformance.name(), requirement)?;
    let first = Some(conformance.copy()?);
    enter(
        alloc,
        image,
        state,
        number,
        first,
        args.as_slice(),
        to,
        size,
    )
}
