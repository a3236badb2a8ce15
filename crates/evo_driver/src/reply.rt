//! What a job gives before its text is on `err`.

ghost use Rattle.std.specs.Prelude.{◌≡◌, ◌++◌, [], None, IfOk, string_bytes};
ghost use Rattle.evo_driver.specs.Top.{Replies};
ghost use Rattle.evo_driver.specs.Answer.{words_answer, refused_answer, fault_text, unread_answer};
ghost use Rattle.evo_driver.specs.declared.reply.ReplyError.TheVariants.{Memory, NotWritten};

use crate::status::Status;
use crate::stop::Refusal;
use evo_base::{Failed, Name};
use evo_runs::Machine;
use evo_tree::SourceFault;
use std::alloc::{AllocError, Global};

/// The text that goes to `err`, the status, and the machine that ran.
#[derive(Drop)]
pub struct Reply {
    pub text: Vec<u8>,
    pub status: Status,
    pub bench: Option<Machine>,
}

/// Why a job gave no reply.
#[derive(Clone, Copy, Debug, PartialEq, Eq)]
pub enum ReplyError {
    NotWritten,
    Memory,
}

impl From<AllocError> for ReplyError {
    ghost from_gives = { λ _ e. e ≡ Memory };

    fn from(_: AllocError) -> Self {
        ReplyError::Memory
    }
}

impl From<Failed> for ReplyError {
    ghost from_gives = { λ _ e. e ≡ NotWritten };

    fn from(_: Failed) -> Self {
        ReplyError::NotWritten
    }
}

// A reply without a machine.
fn told(text: Vec<u8>, status: Status) -> Reply
    ensures text { result.text ≡ text }
    ensures status { result.status ≡ status }
    ensures bench { result.bench ≡ None }
{
    Reply {
        text,
        status,
        bench: None,
    }
}

/// A reply to words that are no command.
pub fn not_understood(alloc: Global) -> Result<Reply, AllocError>
    ensures { IfOk result (Replies words_answer) }
{
    let text = b"words not understood\n".to_vec(alloc)?;
    Ok(told(text, Status::NotUnderstood))
}

// A name and what is wrong with the file.
fn text_on(alloc: Global, name: &Name, why: &[u8]) -> Result<Vec<u8>, AllocError>
    ensures { IfOk result (λ text. text.items ≡ name.now ++ why.now) }
{
    let mut text = name.as_slice().to_vec(alloc)?;
    text.extend_from_slice(why)?;
    Ok(text)
}

// What stands behind the name of a file with this fault.
#[tactic(auto, unfolding(crate::specs::Answer::fault_text))]
fn fault_line(alloc: Global, fault: SourceFault) -> Result<String, AllocError>
    ensures { IfOk result (λ text. string_bytes text ≡ fault_text fault) }
{
    let place = fault.place;
    format!(in alloc; ":{}:{}: {}\n", place.line, place.col, fault.kind.text())
}

/// A reply to a file of this name that is refused.
pub fn refused(alloc: Global, name: &Name, why: Refusal) -> Result<Reply, AllocError>
    ensures { IfOk result (Replies (refused_answer why name.now)) }
{
    match why {
        Refusal::TooLong => {
            let text = text_on(alloc, name, b": file too long\n")?;
            Ok(told(text, Status::TooLong))
        }
        Refusal::Source(fault) => {
            let line = fault_line(alloc, fault)?;
            let text = text_on(alloc, name, line.as_bytes())?;
            Ok(told(text, Status::NotAccepted))
        }
        Refusal::InterfaceTooLong => {
            let text = text_on(alloc, name, b": interface too long\n")?;
            Ok(told(text, Status::TooLong))
        }
    }
}

/// A reply to a file of this name that could not be read.
pub fn unread(alloc: Global, name: &Name) -> Result<Reply, AllocError>
    ensures { IfOk result (Replies (unread_answer name.now)) }
{
    let mut text = b"cannot read ".to_vec(alloc)?;
    text.extend_from_slice(name.as_slice())?;
    text.push(b'\n')?;
    Ok(told(text, Status::NotRead))
}
