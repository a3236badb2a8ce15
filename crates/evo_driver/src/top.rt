//! The top call.

ghost use Rattle.std.specs.Prelude.{◌≡◌, ◌⊎◌};
ghost use Rattle.evo_base.specs.States.{HoldSame};
ghost use Rattle.evo_driver.specs.Top.{OnAnswer, Means, Leaves, Receives, Fails};
ghost use Rattle.evo_driver.specs.Answer.{Answer};

use crate::job::perform;
use crate::reply::ReplyError;
use crate::status::Status;
use evo_base::{Files, Name, Sink};
use evo_runs::Machine;
use std::alloc::Global;

/// Does what the words ask for, over these files and sinks.
///
/// The words are those behind the program's name. What a client prints and the report on broken rules
/// go to `out`, a line as one piece; a text on what went wrong goes to `err`, as one piece. After
/// `Done` and `OutOfTicks` the machine that ran is left in `bench`, and else nothing is. `Memory` may
/// come at any point.
pub fn swevo<F: Files, O: Sink, E: Sink>(
    alloc: Global,
    words: &[Name],
    files: &mut F,
    out: &mut O,
    err: &mut E,
    bench: &mut Option<Machine>,
) -> Status
    // The answer is the one that the words and the files ask for: its bytes, its status, and no failed write.
    ensures answer { OnAnswer result ((a : Answer) × Means words.now (F.state files.old) (F.state files.new) a × (result ≡ a.status)
        × Receives (O.state out.old) (O.state out.new) a.out × Receives (E.state err.old) (E.state err.new) a.err) }

    // A failed write is one of bytes that the answer has for a sink which does not take them all, and the last call on that sink.
    // Where it is that of `out`, nothing is written to `err`.
    ensures unwritten { result ≡ Status.NotWritten → (a : Answer) × Means words.now (F.state files.old) (F.state files.new) a
        × ((Fails (O.state out.old) (O.state out.new) a.out × (err.new ≡ err.old))
        ⊎ (Receives (O.state out.old) (O.state out.new) a.out × Fails (E.state err.old) (E.state err.new) a.err)) }

    // Each file holds what it held, whatever the status.
    ensures files { HoldSame (F.state files.old) (F.state files.new) }

    // The finished machine is left, or nothing is.
    ensures bench { Leaves result bench.new }
{
    *bench = None;
    match perform(alloc, words, files, out) {
        Ok(reply) => {
            if !reply.text.is_empty() && err.write(&reply.text).is_err() {
                return Status::NotWritten;
            }
            *bench = reply.bench;
            reply.status
        }
        Err(ReplyError::NotWritten) => Status::NotWritten,
        Err(ReplyError::Memory) => Status::Memory,
    }
}
