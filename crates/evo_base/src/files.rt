ghost use Rattle.std.specs.Prelude.{◌≡◌, ◌≢◌, ◌+◌, ◌-◌, ◌^◌, ◌<◌, ◌≤◌, List, ℕ, length, IfOk, is_err};
ghost use Rattle.evo_base.specs.Causes.{GetCause, HasCause, get_failed};
ghost use Rattle.evo_base.specs.Content.{ReadsUpTo, Puts};
ghost use Rattle.evo_base.specs.States.{FilesState, HoldSame, StaySure};
ghost use Rattle.evo_base.specs.declared.files.GetFault.TheVariants.{Memory};

use crate::Name;
use std::alloc::{AllocError, AllocFailed, Global};

/// A call on files or a sink failed.
#[derive(Clone, Copy, Debug, PartialEq, Eq)]
pub struct Failed {}

/// Why a file's bytes were not had.
#[derive(Clone, Copy, Debug, PartialEq, Eq)]
pub enum GetFault {
    /// The files failed: there is no such file, or it cannot be read.
    Failed,
    /// There was no memory for the bytes; the files did not fail.
    Memory,
}

impl From<AllocError> for GetFault {
    ghost from_gives = { λ _ e. e ≡ Memory };

    fn from(_: AllocError) -> Self {
        GetFault::Memory
    }
}

impl<T: Drop> From<AllocFailed<T>> for GetFault {
    ghost from_gives = { λ _ e. e ≡ Memory };

    fn from(_: AllocFailed<T>) -> Self {
        GetFault::Memory
    }
}

/// Files by name.
pub trait Files {
    /// What the names hold, how often calls failed, and which calls do not fail.
    ghost state: { Self → FilesState };

    /// The file's bytes, or the first `limit + 1` of them where there are more. A name without a file is a failure.
    fn get(&mut self, alloc: Global, name: &Name, limit: u64) -> Result<Vec<u8>, GetFault>
        requires { limit < 2 ^ 64 - 1 }
        ensures bytes { IfOk result (λ v. ReadsUpTo ((state self.old).held name.now) (limit + 1) v.items) }
        ensures same { HoldSame (state self.old) (state self.new) }
        ensures failed { (state self.new).failed ≡ get_failed result }
        ensures cause { GetCause (state self.old).faults (state self.new).faults ((state self.old).gets name.now) result }
        ensures sure { StaySure (state self.old) (state self.new) };

    /// Puts bytes in the place of what the name has. After a failure the file holds a prefix of them, or what it held.
    fn put(&mut self, name: &Name, bytes: &[u8]) -> Result<(), Failed>
        ensures content { Puts ((state self.old).held name.now) ((state self.new).held name.now) bytes.now result }
        ensures others { (other : List ℕ) → other ≢ name.now → (state self.new).held other ≡ (state self.old).held other }
        ensures failed { (state self.new).failed ≡ is_err result }
        ensures cause { HasCause (state self.old).faults (state self.new).faults ((state self.old).puts name.now (length bytes.now)) result }
        ensures sure { StaySure (state self.old) (state self.new) };

    /// Where so many bytes go in, fewer do.
    ghost puts_fewer: { (files : Self) (name : List ℕ) (m n : ℕ) → m ≤ n → (state files).puts name n → (state files).puts name m };
}
