//! The load check of images.

ghost use Rattle.std.specs.Prelude.{◌≡◌, slice_get};
ghost use Rattle.std.specs.List.{list_all};
ghost use Rattle.evo_code.specs.Loads.{is_timed, is_low, may_call};
ghost use Rattle.evo_execution.specs.Tables.{function_number, start_number};
ghost use Rattle.evo_execution.specs.Loaded.{level_fits, is_there, numbered, instr_loads, code_loads, function_loads, target_loads, entry_loads, class_loads, conformance_loads, image_loads};

use crate::start::start_number;
use evo_base::List;
use evo_code::{
    ClassTable, ConfTable, Entry, Function, Image, Instr, Level, Symbol, Target, begins_well,
    is_low, is_timed, jumps_well, may_call, number_named,
};

/// The number of the function with this symbol.
pub fn function_number(image: &Image, symbol: &Symbol) -> Option<u64>
    ensures { result ≡ function_number image.now symbol.now }
{
    number_named(image.functions.as_slice(), symbol.as_slice())
}

// Whether a function of this level may call the one with this symbol, where there is one.
fn call_loads(image: &Image, level: Level, symbol: &Symbol) -> bool
    ensures { result ≡ level_fits (may_call level) (numbered image.now (function_number image.now symbol.now)) }
{
    let Some(number) = function_number(image, symbol) else {
        return true;
    };
    match image.functions.as_slice().get(number as usize) {
        Some(function) => may_call(level, function.level),
        None => true,
    }
}

fn check_instr(image: &Image, level: Level, code: &[Instr], at: u64, instr: &Instr) -> bool
    ensures { result ≡ instr_loads image.now level code.now at instr.now }
{
    match instr {
        Instr::Tick => is_timed(level),
        Instr::Jump { target } => jumps_well(code, at, *target),
        Instr::Unless { target, .. } => jumps_well(code, at, *target),
        Instr::Call { function, .. } => call_loads(image, level, function),
        Instr::Witness { .. } => may_call(level, Level::Two),
        _ => true,
    }
}

fn check_code(image: &Image, level: Level, code: &[Instr]) -> bool
    ensures { result ≡ code_loads image.now level code.now 0 code.now }
{
    for (at, instr) in code.iter().enumerate() {
        if !check_instr(image, level, code, at as u64, instr) {
            return false;
        }
    }
    true
}

fn check_functions(image: &Image) -> bool
    ensures { result ≡ list_all (function_loads image.now) image.now.functions }
{
    for function in image.functions.as_slice() {
        let code = function.code.as_slice();
        if !begins_well(function.level, code) || !check_code(image, function.level, code) {
            return false;
        }
    }
    true
}

// Whether a table may lead to this from a class: to a table, or to a timed function.
fn is_method(image: &Image, target: &Target) -> bool
    ensures { result ≡ target_loads image.now is_timed target.now }
{
    match target {
        Target::Code(number) => match image.functions.as_slice().get(*number as usize) {
            Some(function) => is_timed(function.level),
            None => true,
        },
        Target::Table(_) => true,
    }
}

// Whether a table may lead to this from a conformance: to a table, or to a function that is timed or low.
fn is_witness(image: &Image, target: &Target) -> bool
    ensures { result ≡ target_loads image.now is_low target.now }
{
    match target {
        Target::Code(number) => match image.functions.as_slice().get(*number as usize) {
            Some(function) => is_low(function.level),
            None => true,
        },
        Target::Table(_) => true,
    }
}

fn check_class(image: &Image, entries: &List<Entry>) -> bool
    ensures { result ≡ list_all (entry_loads image.now is_timed) entries.now }
{
    for entry in entries.as_slice() {
        if !is_method(image, &entry.target) {
            return false;
        }
    }
    true
}

fn check_conformance(image: &Image, entries: &List<Entry>) -> bool
    ensures { result ≡ list_all (entry_loads image.now is_low) entries.now }
{
    for entry in entries.as_slice() {
        if !is_witness(image, &entry.target) {
            return false;
        }
    }
    true
}

fn check_classes(image: &Image, classes: &List<ClassTable>) -> bool
    ensures { result ≡ list_all (class_loads image.now) classes.now }
{
    for class in classes.as_slice() {
        if !check_class(image, &class.entries) {
            return false;
        }
    }
    true
}

fn check_conformances(image: &Image, conformances: &List<ConfTable>) -> bool
    ensures { result ≡ list_all (conformance_loads image.now) conformances.now }
{
    for conformance in conformances.as_slice() {
        if !check_conformance(image, &conformance.entries) {
            return false;
        }
    }
    true
}

// Whether there is a function that a run enters first.
fn can_start(image: &Image) -> bool
    ensures { result ≡ is_there (numbered image.now (start_number image.now)) }
{
    match start_number(image) {
        Some(number) => image.functions.as_slice().get(number as usize).is_some(),
        None => false,
    }
}

/// Whether an image passes the load check: its functions and tables do, and a run can begin. It takes no memory.
pub fn loads(image: &Image) -> bool
    ensures { result ≡ image_loads image.now }
{
    check_functions(image)
        && check_classes(image, &image.classes)
        && check_conformances(image, &image.conformances)
        && can_start(image)
}
