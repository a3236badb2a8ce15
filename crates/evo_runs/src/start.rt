//! Where a run begins.

ghost use Rattle.std.specs.Prelude.{◌≡◌, Some, IfOk, slice_get};
ghost use Rattle.evo_code.specs.Named.{number_from};
ghost use Rattle.evo_execution.specs.Tables.{start_number, start_symbol, symbols_of};
ghost use Rattle.evo_execution.specs.Loaded.{IsLoaded};
ghost use Rattle.evo_execution.specs.Execution.{frame_of};
ghost use Rattle.evo_runs.specs.Starts.{StartsAt};

use evo_code::{Function, Image, number_named};
use evo_interpreter::{Frame, Frames, State, Words, room};
use std::alloc::{AllocError, Global};

// The number of the first of these functions that a run may enter first, where they are counted from 0.
fn start_among(functions: &[Function]) -> Option<u64>
    ensures { result ≡ number_from 0 (symbols_of functions.now) start_symbol }
{
    number_named(functions, b"main#start".as_slice())
}

/// The number of the function that a run enters first.
pub fn start_number(image: &Image) -> Option<u64>
    ensures { result ≡ start_number image.now }
{
    let functions = image.functions.as_slice();
    if image.library >= functions.len() as u64 {
        return start_among(functions);
    }
    let (library, client) = functions.split_at(image.library as usize);
    match start_among(client) {
        Some(number) => Some(library.len() as u64 + number),
        None => start_among(library),
    }
}

// The function that a run enters first, and its number.
fn first(image: &Image) -> (u64, &Function)
    requires { IsLoaded image.now }
    ensures number { start_number image.now ≡ Some result.0 }
    ensures function { slice_get image.now.functions result.0 ≡ Some result.1.now }
{
    let Some(number) = start_number(image) else {
        unreachable!()
    };
    match image.functions.as_slice().get(number as usize) {
        Some(function) => (number, function),
        None => unreachable!(),
    }
}

/// The state from which an image runs, with no ticks.
pub fn start(alloc: Global, image: &Image) -> Result<State, AllocError>
    requires { IsLoaded image.now }
    ensures { IfOk result (λ s. StartsAt image.now s) }
{
    let (number, function) = first(image);
    let mut words = Words::new(alloc);
    words.fill(room(function.slots.as_slice(), &image.sizes))?;
    let top = Frame {
        function: number,
        at: 0,
        words,
        to: 0,
    };
    Ok(State {
        top,
        below: Frames::new(alloc),
        objects: Vec::new(alloc),
        ticks: 0,
    })
}
