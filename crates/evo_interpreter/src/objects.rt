//! The instructions that read and write objects and boxes.

ghost use Rattle.std.specs.Prelude.{◌≡◌, ◌+◌, ◌++◌, ◌∷◌, [], ◌<◌, ◌^◌, length, replicate, codes, IfOk, OnOk, MatchOption, MatchResult, None, Some};
ghost use Rattle.evo_code.specs.declared.instr.Instr.TheVariants as Op;
ghost use Rattle.evo_execution.specs.Execution.{act, object_at, words_at, with_object, written_at};
ghost use Rattle.evo_execution.specs.Words.{and_then, Empty, Got, Stops};
ghost use Rattle.evo_execution.specs.Tables.{before, instance_words};
ghost use Rattle.evo_interpreter.specs.States.{state_of, object_of, Answers, Ran};

use crate::halt::{Effect, Halt};
use crate::operands::{address, boxed, put, put_all, read, reference};
use crate::plain::do_put;
use crate::state::{Object, State};
use crate::text::Text;
use crate::word::{Word, copy_words};
use crate::words::Words;
use evo_code::{Image, Layout, Operand, Symbol, item_named, value};
use evo_execution::{MachineFault, Stop};
use sqlite_items::Items;
use std::alloc::{AllocError, Global};

/// Puts a box of words.
pub fn do_box(
    alloc: Global,
    image: &Image,
    state: &mut State,
    to: &Operand,
    from: &Operand,
    size: &Layout,
) -> Result<Effect, Halt>
    requires { state.old.top.at + 1 < 2 ^ 64 }
    ensures { Ran result state.new (act image.now (state_of state.old) (Op.Box to.now from.now size.now)) }
{
    let at = address(image, state, from);
    let Some(found) = state.top.words.slice(at, value(size, &image.sizes)) else {
        return Err(Halt::Stop(Stop::Fault(MachineFault::Range)));
    };
    let boxed = Items::from_vec(copy_words(alloc, found)?);
    do_put(image, state, to, Word::Boxed(boxed))
}

// Copies of words of an object.
fn object_words(
    alloc: Global,
    state: &State,
    object: u64,
    offset: u64,
    count: u64,
) -> Result<Words, Halt>
    ensures { Answers result (and_then (object_at (state_of state.now) object) (λ i. words_at i.words offset count)) }
{
    let Some(object) = state.objects.get(object as usize) else {
        return Err(Halt::Stop(Stop::Fault(MachineFault::Range)));
    };
    let Some(found) = object.words.slice(offset, count) else {
        return Err(Halt::Stop(Stop::Fault(MachineFault::Range)));
    };
    let mut words = Words::new(alloc);
    words.append(alloc, found)?;
    Ok(words)
}

/// Copies words out of an object.
pub fn do_load(
    alloc: Global,
    image: &Image,
    state: &mut State,
    to: &Operand,
    object: &Operand,
    offset: &Layout,
    size: &Layout,
) -> Result<Effect, Halt>
    requires { state.old.top.at + 1 < 2 ^ 64 }
    ensures { Ran result state.new (act image.now (state_of state.old) (Op.Load to.now object.now offset.now size.now)) }
{
    let object = reference(image, state, object)?;
    let offset = value(offset, &image.sizes);
    let words = object_words(alloc, state, object, offset, value(size, &image.sizes))?;
    put_all(image, state, to, words)?;
    state.top.at += 1;
    Ok(Effect::Goes)
}

// Whether there is an object of this number.
fn has_object(state: &State, number: u64) -> Result<(), Stop>
    ensures { MatchResult result (λ _. number < length state.now.objects.items) (λ e. object_at (state_of state.now) number ≡ Stops e) }
{
    if number < state.objects.len() as u64 {
        Ok(())
    } else {
        Err(Stop::Fault(MachineFault::Range))
    }
}

// Copies words into an object.
fn store_words(state: &mut State, number: u64, offset: u64, words: Words) -> Result<(), Stop>
    requires { number < length state.old.objects.items }
    ensures { MatchResult result
        (λ _. and_then (object_at (state_of state.old) number) (λ i. and_then (written_at i.words offset words) (λ ws. Got (with_object (state_of state.old) number (record i { words = ws })))) ≡ Got (state_of state.new))
        (λ e. and_then (object_at (state_of state.old) number) (λ i. and_then (written_at i.words offset words) (λ ws. Got (with_object (state_of state.old) number (record i { words = ws })))) ≡ Stops e) }
{
    if state.objects[number as usize].words.write(offset, words) {
        Ok(())
    } else {
        Err(Stop::Fault(MachineFault::Range))
    }
}

/// Copies words into an object.
pub fn do_store(
    alloc: Global,
    image: &Image,
    state: &mut State,
    object: &Operand,
    offset: &Layout,
    from: &Operand,
    size: &Layout,
) -> Result<Effect, Halt>
    requires { state.old.top.at + 1 < 2 ^ 64 }
    ensures { Ran result state.new (act image.now (state_of state.old) (Op.Store object.now offset.now from.now size.now)) }
{
    let object = reference(image, state, object)?;
    has_object(state, object)?;
    let words = read(alloc, image, state, from, value(size, &image.sizes))?;
    store_words(state, object, value(offset, &image.sizes), words)?;
    state.top.at += 1;
    Ok(Effect::Goes)
}

/// Copies the words of a box.
pub fn do_unbox(
    alloc: Global,
    image: &Image,
    state: &mut State,
    to: &Operand,
    from: &Operand,
    size: &Layout,
) -> Result<Effect, Halt>
    requires { state.old.top.at + 1 < 2 ^ 64 }
    ensures { Ran result state.new (act image.now (state_of state.old) (Op.Unbox to.now from.now size.now)) }
{
    let found = boxed(image, state, from)?;
    if found.len() as u64 != value(size, &image.sizes) {
        return Err(Halt::Stop(Stop::Fault(MachineFault::Size)));
    }
    let mut words = Words::new(alloc);
    words.append(alloc, found)?;
    put_all(image, state, to, words)?;
    state.top.at += 1;
    Ok(Effect::Goes)
}

// What stands before this ending of a text.
fn before<'a>(ending: &[u8], text: &'a [u8]) -> Option<&'a [u8]>
    requires { 0 < length ending.now }
    ensures { MatchOption result (before ending.now text.now ≡ None) (λ t. before ending.now text.now ≡ Some t.now) }
{
    if text.len() < ending.len() {
        return None;
    }
    let (front, back) = text.split_at(text.len() - ending.len());
    if ending == back { Some(front) } else { None }
}

// The words of a new instance of a class.
fn instance_words(alloc: Global, image: &Image, class: &Symbol) -> Result<Option<u64>, AllocError>
    ensures { IfOk result (λ words. words ≡ instance_words image.now class.now) }
{
    let Some(front) = before(b"#class".as_slice(), class.as_slice()) else {
        return Ok(None);
    };
    let mut symbol = front.to_vec(alloc)?;
    symbol.extend_from_slice(b"#instance".as_slice())?;
    match item_named(&image.sizes, symbol.as_slice()) {
        Some(size) => Ok(Some(size.words)),
        None => Ok(None),
    }
}

// Puts a new object of so many words behind the others.
fn add_object(
    alloc: Global,
    state: &mut State,
    class: &Symbol,
    count: u64,
) -> Result<(), AllocError>
    ensures { OnOk result (state_of state.new ≡ record (state_of state.old) { objects = (state_of state.old).objects ++ record { class = class.now; words = replicate count Empty } ∷ [] }) }
{
    let class = Text::new(alloc, class.copy(alloc)?)?;
    let mut words = Words::new(alloc);
    words.fill(count)?;
    state.objects.push(Object { class, words })?;
    Ok(())
}

/// Puts a reference to a new instance of a class.
pub fn do_new(
    alloc: Global,
    image: &Image,
    state: &mut State,
    to: &Operand,
    class: &Symbol,
) -> Result<Effect, Halt>
    requires { state.old.top.at + 1 < 2 ^ 64 }
    ensures { Ran result state.new (act image.now (state_of state.old) (Op.New to.now class.now)) }
{
    let Some(count) = instance_words(alloc, image, class)? else {
        return Err(Halt::Stop(Stop::Fault(MachineFault::Size)));
    };
    let number = state.objects.len() as u64;
    put(image, state, to, Word::Reference(number))?;
    add_object(alloc, state, class, count)?;
    state.top.at += 1;
    Ok(Effect::Goes)
}
