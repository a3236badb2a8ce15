//! The report on rules that a new library breaks.

ghost use Rattle.std.specs.Prelude.{◌≡◌};
ghost use Rattle.evo_first_form.specs.Rules.{removed_lines};
ghost use Rattle.evo_driver.specs.Top.{GivesResult, WritesAll};
ghost use Rattle.evo_driver.specs.Answer.{report_answer};

use crate::reply::{Reply, ReplyError};
use crate::status::Status;
use evo_base::{Name, Sink};
use evo_rules::report_line;
use std::alloc::Global;

// Writes the line of each name as a piece of its own.
fn write_lines<O: Sink>(
    alloc: Global,
    library: &Name,
    names: &[Name],
    out: &mut O,
) -> Result<(), ReplyError>
    ensures { WritesAll (removed_lines library.now names.now) (O.state out.old) (O.state out.new) result }
{
    for name in names {
        let line = report_line(alloc, library, name)?;
        out.write(&line)?;
    }
    Ok(())
}

/// Writes the report on these functions, which were removed.
pub fn report<O: Sink>(
    alloc: Global,
    library: &Name,
    names: &[Name],
    out: &mut O,
) -> Result<Reply, ReplyError>
    ensures { GivesResult (λ a. a ≡ report_answer (removed_lines library.now names.now)) (O.state out.old) (O.state out.new) result }
{
    write_lines(alloc, library, names, out)?;
    Ok(Reply {
        text: Vec::new(alloc),
        status: Status::BreaksRules,
        bench: None,
    })
}
