//! What operands name: words of the frame that runs.

ghost use Rattle.std.specs.Prelude.{◌≡◌, map, min, sum, take, MatchResult};
ghost use Rattle.evo_code.specs.Layouts.{value, most_words};
ghost use Rattle.evo_execution.specs.Words.{Got, Stops};
ghost use Rattle.evo_execution.specs.Execution.{address, read, read_word, integer, truth, text, table, reference, boxed, put, put_word};
ghost use Rattle.evo_interpreter.specs.Integers.{answer_of};
ghost use Rattle.evo_interpreter.specs.States.{state_of, Answers};
ghost use Rattle.evo_interpreter.specs.Words.{word_of};

use crate::halt::Halt;
use crate::state::State;
use crate::text::Text;
use crate::word::Word;
use crate::words::Words;
use evo_base::Name;
use evo_code::{Image, Layout, Operand, Sizes, value};
use evo_execution::{MachineFault, Stop};
use std::alloc::Global;

/// The words of some layouts, one behind the other.
pub fn room(layouts: &[Layout], sizes: &Sizes) -> u64
    ensures { result ≡ min most_words (sum (map (value sizes.now) layouts.now)) }
{
    let mut words: u64 = 0;
    for layout in layouts {
        words = words.saturating_add(value(layout, sizes));
    }
    words
}

/// The words of the first so many layouts.
pub fn room_before(layouts: &[Layout], count: u64, sizes: &Sizes) -> u64
    ensures { result ≡ min most_words (sum (map (value sizes.now) (take count layouts.now))) }
{
    if count >= layouts.len() as u64 {
        return room(layouts, sizes);
    }
    room(&layouts[..count as usize], sizes)
}

/// The word of the frame at which a place begins.
pub fn address(image: &Image, state: &State, place: &Operand) -> u64
    ensures { result ≡ address image.now (state_of state.now) place.now }
{
    let before = match image.functions.as_slice().get(state.top.function as usize) {
        Some(function) => room_before(function.slots.as_slice(), place.slot, &image.sizes),
        None => 0,
    };
    before.saturating_add(value(&place.offset, &image.sizes))
}

/// The word at a place.
pub fn word<'a>(image: &Image, state: &'a State, place: &Operand) -> Result<&'a Word, Stop>
    ensures { MatchResult result (λ w. read_word image.now (state_of state.now) place.now ≡ Got (word_of w.now)) (λ e. read_word image.now (state_of state.now) place.now ≡ Stops e) }
{
    let at = address(image, state, place);
    match state.top.words.get(at) {
        Some(word) => Ok(word),
        None => Err(Stop::Fault(MachineFault::Range)),
    }
}

/// The integer at a place.
pub fn integer(image: &Image, state: &State, place: &Operand) -> Result<i64, Stop>
    ensures { answer_of result ≡ integer image.now (state_of state.now) place.now }
{
    match word(image, state, place)? {
        Word::Int(number) => Ok(*number),
        _ => Err(Stop::Fault(MachineFault::Word)),
    }
}

/// The truth value at a place.
pub fn truth(image: &Image, state: &State, place: &Operand) -> Result<bool, Stop>
    ensures { answer_of result ≡ truth image.now (state_of state.now) place.now }
{
    match word(image, state, place)? {
        Word::Bool(truth) => Ok(*truth),
        _ => Err(Stop::Fault(MachineFault::Word)),
    }
}

/// The number of the object to which the word at a place refers.
pub fn reference(image: &Image, state: &State, place: &Operand) -> Result<u64, Stop>
    ensures { answer_of result ≡ reference image.now (state_of state.now) place.now }
{
    match word(image, state, place)? {
        Word::Reference(object) => Ok(*object),
        _ => Err(Stop::Fault(MachineFault::Word)),
    }
}

/// Puts a word at a place.
pub fn put(image: &Image, state: &mut State, to: &Operand, word: Word) -> Result<(), Stop>
    ensures { MatchResult result (λ _. put_word image.now (state_of state.old) to.now (word_of word) ≡ Got (state_of state.new)) (λ e. put_word image.now (state_of state.old) to.now (word_of word) ≡ Stops e) }
{
    let at = address(image, state, to);
    if state.top.words.set(at, word) {
        Ok(())
    } else {
        Err(Stop::Fault(MachineFault::Range))
    }
}

/// The string at a place.
pub fn text<'a>(image: &Image, state: &'a State, place: &Operand) -> Result<&'a Name, Stop>
    ensures { MatchResult result (λ t. text image.now (state_of state.now) place.now ≡ Got t.now) (λ e. text image.now (state_of state.now) place.now ≡ Stops e) }
{
    match word(image, state, place)? {
        Word::Text(text) => Ok(text.name()),
        _ => Err(Stop::Fault(MachineFault::Word)),
    }
}

/// The conformance whose table stands at a place.
pub fn table<'a>(image: &Image, state: &'a State, place: &Operand) -> Result<&'a Text, Stop>
    ensures { MatchResult result (λ t. table image.now (state_of state.now) place.now ≡ Got t.now) (λ e. table image.now (state_of state.now) place.now ≡ Stops e) }
{
    match word(image, state, place)? {
        Word::Table(conformance) => Ok(conformance),
        _ => Err(Stop::Fault(MachineFault::Word)),
    }
}

/// Copies of so many words from a place on.
pub fn read(
    alloc: Global,
    image: &Image,
    state: &State,
    place: &Operand,
    count: u64,
) -> Result<Words, Halt>
    ensures { Answers result (read image.now (state_of state.now) place.now count) }
{
    let at = address(image, state, place);
    let Some(found) = state.top.words.slice(at, count) else {
        return Err(Halt::Stop(Stop::Fault(MachineFault::Range)));
    };
    let mut words = Words::new(alloc);
    words.append(alloc, found)?;
    Ok(words)
}

/// Puts words from a place on.
pub fn put_all(image: &Image, state: &mut State, to: &Operand, words: Words) -> Result<(), Stop>
    ensures { MatchResult result (λ _. put image.now (state_of state.old) to.now words ≡ Got (state_of state.new)) (λ e. put image.now (state_of state.old) to.now words ≡ Stops e) }
{
    let at = address(image, state, to);
    if state.top.words.write(at, words) {
        Ok(())
    } else {
        Err(Stop::Fault(MachineFault::Range))
    }
}

/// The words of the box at a place.
pub fn boxed<'a>(image: &Image, state: &'a State, place: &Operand) -> Result<&'a [Word], Stop>
    ensures { MatchResult result (λ ws. boxed image.now (state_of state.now) place.now ≡ Got (map word_of ws.now)) (λ e. boxed image.now (state_of state.now) place.now ≡ Stops e) }
{
    match word(image, state, place)? {
        Word::Boxed(words) => Ok(words.as_slice()),
        _ => Err(Stop::Fault(MachineFault::Word)),
    }
}
