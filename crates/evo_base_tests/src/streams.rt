//! Streams.

use crate::report::Report;
use evo_base::{Sink, StdSink};
use std::alloc::{AllocError, Global};

/// Pieces are written one behind another.
pub fn try_open(alloc: Global, report: &mut Report) -> Result<(), AllocError> {
    let mut text = Vec::new(alloc);
    let mut sink = StdSink::new(&mut text);
    let are_written = sink.write(b"one\n").is_ok()
        && sink.write(b"").is_ok()
        && sink.write(b"two").is_ok();
    report.tell("writes to a stream", are_written)?;
    report.tell("a stream", text.as_slice() == b"one\ntwo".as_slice())
}

/// A stream that is full keeps a front of the last piece.
pub fn try_full(report: &mut Report) -> Result<(), AllocError> {
    let mut room = [0u8; 5];
    let mut full = StdSink::new(room.as_mut_slice());
    let first = full.write(b"one\n").is_ok();
    let second = full.write(b"two\n").is_err();
    report.tell("a stream with room", first)?;
    report.tell("a stream without room", second)?;
    report.tell("a full stream", room.as_slice() == b"one\nt".as_slice())
}
