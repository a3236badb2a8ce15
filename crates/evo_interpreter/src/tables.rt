//! The instructions that use witness tables.

ghost use Rattle.std.specs.Prelude.{◌≡◌, ◌+◌, ◌<◌, ◌^◌, MatchResult};
ghost use Rattle.evo_code.specs.declared.instr.Instr.TheVariants as Op;
ghost use Rattle.evo_execution.specs.Execution.{act, subtable};
ghost use Rattle.evo_execution.specs.Tables.{entry_of, subtable_at, target_named};
ghost use Rattle.evo_execution.specs.Words.{and_then, Got, Stops};
ghost use Rattle.evo_interpreter.specs.States.{state_of, Answers, Ran};

use crate::halt::{Effect, Halt};
use crate::operands::table;
use crate::plain::do_put;
use crate::state::State;
use crate::text::Text;
use crate::word::Word;
use evo_base::List;
use evo_code::{Entry, Image, Operand, Symbol, Target, item_named};
use evo_execution::{MachineFault, Stop};
use std::alloc::Global;

// The conformance to which the entry of this name leads.
fn table_named<'a>(entries: &'a List<Entry>, name: &Symbol) -> Result<&'a Symbol, Stop>
    ensures { MatchResult result (λ c. subtable_at (target_named entries.now name.now) ≡ Got c.now) (λ e. subtable_at (target_named entries.now name.now) ≡ Stops e) }
{
    let Some(entry) = item_named(entries, name.as_slice()) else {
        return Err(Stop::Fault(MachineFault::Entry));
    };
    match &entry.target {
        Target::Table(conformance) => Ok(conformance),
        Target::Code(_) => Err(Stop::Fault(MachineFault::Entry)),
    }
}

// The conformance that the table of a conformance has under a name.
fn subtable_of<'a>(
    image: &'a Image,
    conformance: &Symbol,
    name: &Symbol,
) -> Result<&'a Symbol, Stop>
    ensures { MatchResult result (λ c. and_then (entry_of image.now conformance.now name.now) subtable_at ≡ Got c.now) (λ e. and_then (entry_of image.now conformance.now name.now) subtable_at ≡ Stops e) }
{
    let Some(table) = item_named(&image.conformances, conformance.as_slice()) else {
        return Err(Stop::Fault(MachineFault::Entry));
    };
    table_named(&table.entries, name)
}

/// Puts the subtable of this name of a witness table.
pub fn do_sub(
    alloc: Global,
    image: &Image,
    state: &mut State,
    to: &Operand,
    from: &Operand,
    name: &Symbol,
) -> Result<Effect, Halt>
    requires { state.old.top.at + 1 < 2 ^ 64 }
    ensures { Ran result state.new (act image.now (state_of state.old) (Op.Sub to.now from.now name.now)) }
{
    let conformance = subtable_of(image, table(image, state, from)?.name(), name)?;
    let conformance = Text::new(alloc, conformance.copy(alloc)?)?;
    do_put(image, state, to, Word::Table(conformance))
}
