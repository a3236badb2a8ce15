//! The edge: real files and streams. They tell no content, and count their faults.

ghost use Rattle.std.specs.Prelude.{ℕ, ◌≡◌, ◌≤◌, false, length, vec_len, IfOk, is_err};
ghost use Rattle.evo_base.specs.Causes.{HasCause};
ghost use Rattle.evo_base.specs.Content.{HandsOn, Writes};

use crate::{Failed, Files, GetFault, Name, Sink};
use std::alloc::Global;
use std::io::{ErrorKind, Read, Write};
use std::{fs, io, rt};

/// The files of the system, each under its name as a path.
#[derive(Drop)]
pub struct DiskFiles<'a, R: rt::Files> {
    system: &'a R,
    faults: u64,
    failed: bool,
}

impl<'a, R: rt::Files> DiskFiles<'a, R> {
    /// No call has been made, and none has failed.
    pub fn new(system: &'a R) -> Self
        ensures faults { result.faults ≡ 0 }
        ensures failed { result.failed ≡ false }
    {
        DiskFiles {
            system,
            faults: 0,
            failed: false,
        }
    }
}

/// A stream such as standard output. Each piece is flushed as it is written.
#[derive(Drop)]
pub struct StdSink<W: Write + Drop> {
    stream: W,
    faults: u64,
    failed: bool,
}

impl<W: Write + Drop> StdSink<W> {
    /// No call has been made, and none has failed.
    pub fn new(stream: W) -> Self
        ensures faults { result.faults ≡ 0 }
        ensures failed { result.failed ≡ false }
    {
        StdSink {
            stream,
            faults: 0,
            failed: false,
        }
    }
}

// The first bytes of a file, at most so many.
fn read_front<R: rt::Files>(
    system: &R,
    alloc: Global,
    name: &str,
    most: usize,
) -> io::Result<Vec<u8>>
    ensures { IfOk result (λ bytes. vec_len bytes ≤ most) }
{
    let mut bytes = Vec::new(alloc);
    fs::open(system, name)?
        .take(most as u64)
        .read_to_end(&mut bytes)?;
    bytes.truncate(most);
    Ok(bytes)
}

// Hands a piece on, and flushes it. A writer that fails has a prefix of it.
fn hand_on<W: Write>(stream: &mut W, piece: &[u8]) -> Result<(), Failed>
    ensures { HandsOn (W.contents stream.old) (W.contents stream.new) piece.now result }
{
    let mut at = 0;
    for _turn in 0..u64::MAX {
        if at == piece.len() {
            return match stream.flush() {
                Ok(()) => Ok(()),
                Err(_) => Err(Failed {}),
            };
        }
        match stream.write(&piece[at..]) {
            Ok(0) => return Err(Failed {}),
            Ok(n) => at += n,
            Err(e) if e.kind() == ErrorKind::Interrupted => {}
            Err(_) => return Err(Failed {}),
        }
    }
    Err(Failed {})
}

impl<'a, R: rt::Files> Files for DiskFiles<'a, R> {
    ghost use Rattle.std.specs.Prelude.{None};

    ghost state = { λ d. record { held = λ _. None; faults = d.faults; failed = d.failed; gets = λ _. ⊥; puts = λ _ _. ⊥ } };

    fn get(&mut self, alloc: Global, name: &Name, limit: u64) -> Result<Vec<u8>, GetFault> {
        self.failed = false;
        match read_front(self.system, alloc, name.as_str(), limit as usize + 1) {
            Ok(bytes) => Ok(bytes),
            Err(e) if e.kind() == ErrorKind::OutOfMemory => Err(GetFault::Memory),
            Err(_) => {
                self.faults = self.faults.saturating_add(1);
                self.failed = true;
                Err(GetFault::Failed)
            }
        }
    }

    fn put(&mut self, name: &Name, bytes: &[u8]) -> Result<(), Failed> {
        self.failed = false;
        match fs::write(self.system, name.as_str(), bytes) {
            Ok(()) => Ok(()),
            Err(_) => {
                self.faults = self.faults.saturating_add(1);
                self.failed = true;
                Err(Failed {})
            }
        }
    }

    ghost puts_fewer = { λ _ _ _ _ _ puts. puts };
}

impl<W: Write + Drop> Sink for StdSink<W> {
    ghost use Rattle.std.specs.Prelude.{None};

    ghost state = { λ s. record { written = None; faults = s.faults; failed = s.failed; takes = λ _. ⊥ } };

    fn write(&mut self, piece: &[u8]) -> Result<(), Failed>
        ensures content { Writes None None piece.now result }
        ensures failed { self.new.failed ≡ is_err result }
        ensures cause { HasCause self.old.faults self.new.faults ⊥ result }
        ensures takes { (n : ℕ) → length piece.now ≤ n → ⊥ → ⊥ }
        // A stream that tells what it holds has got exactly the piece, or a prefix of it where that failed.
        ensures hands_on { HandsOn (W.contents self.old.stream) (W.contents self.new.stream) piece.now result }
    {
        let handed = hand_on(&mut self.stream, piece);
        self.failed = handed.is_err();
        if self.failed {
            self.faults = self.faults.saturating_add(1);
        }
        handed
    }

    ghost takes_fewer = { λ _ _ _ _ takes. takes };
}
