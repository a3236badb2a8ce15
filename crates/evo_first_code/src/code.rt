//! The code of terms, and of functions that give them.

ghost use Rattle.std.specs.Prelude.{◌≡◌, IfOk};
ghost use Rattle.evo_first_code.specs.Objects.{one_word as the_word, slot as the_slot, term_code as the_instr, function_of as the_function, client_symbol};
ghost use Rattle.evo_first_form.specs.Facts.{TermFacts};

use crate::symbol::called_symbol;
use evo_base::{List, Name};
use evo_code::{Function, Instr, Layout, Level, Operand, Symbol};
use evo_copies::View;
use evo_first_form::Term;
use std::alloc::{AllocError, Global};

/// One word.
pub fn one_word() -> Layout
    ensures { result ≡ the_word }
{
    Layout::Words(1)
}

/// The first word of a slot.
pub fn slot(number: u64) -> Operand
    ensures { result ≡ the_slot number }
{
    Operand {
        slot: number,
        offset: Layout::Words(0),
    }
}

/// The instruction that puts a term's value into a slot, in code that copies the functions of this view.
pub fn term_code(
    alloc: Global,
    library: &Name,
    view: &View<'_>,
    to: u64,
    term: &Term,
) -> Result<Instr, AllocError>
    requires { TermFacts term.now }
    ensures { IfOk result (λ i. i ≡ the_instr (client_symbol library.now view.now) to term.now) }
{
    match term {
        Term::Integer(value) => Ok(Instr::Int {
            to: slot(to),
            value: *value as i64,
        }),
        Term::Call(name) => Ok(Instr::Call {
            function: called_symbol(alloc, library, view, name)?,
            args: List::from_vec(Vec::new(alloc)),
            to: slot(to),
            size: one_word(),
        }),
    }
}

/// A function that takes its tick and gives the value of a term.
pub fn function_of(
    alloc: Global,
    library: &Name,
    view: &View<'_>,
    symbol: Symbol,
    exported: bool,
    body: &Term,
) -> Result<Function, AllocError>
    requires { TermFacts body.now }
    ensures { IfOk result (λ f. f ≡ the_function symbol exported (client_symbol library.now view.now) body.now) }
{
    let mut slots = Vec::new(alloc);
    slots.push(one_word())?;
    let mut code = Vec::new(alloc);
    code.push(Instr::Tick)?;
    code.push(term_code(alloc, library, view, 0, body)?)?;
    code.push(Instr::Return {
        from: slot(0),
        size: one_word(),
    })?;
    Ok(Function {
        symbol,
        level: Level::Timed,
        exported,
        slots: List::from_vec(slots),
        params: 0,
        result: one_word(),
        code: List::from_vec(code),
    })
}
