//! Rules of a grammar as relations, readers of tokens as functions, and the laws that tie them.
//!
//! The rules (`specs/Rule`) and the readers (`specs/Reader`, `specs/Guard`, `specs/Attempt`) are built from the same few
//! parts. `ReadsRule` of `specs/Laws` says that a reader reads a rule, and `proofs/` has it for each part once, so a
//! production is one line of a grammar, one of a reader and one of a proof. What a fault is in a grammar's own terms
//! stands in `specs/Contract`. This crate stands on std alone; `evo_tree` has the grammar, and the readers stand above.
#![tactic(auto)]

use std::alloc::{AllocError, AllocFailed};

/// Why nothing is read. The number is how many tokens there are from that place on.
#[derive(Clone, Copy, Debug, PartialEq, Eq)]
pub enum Fault {
    /// No spelling goes on with the token there, or with the end where the number is 0.
    Grammar(usize),
    /// The token there opens one nesting too many.
    Deep(usize),
}

/// Why a reader has no value: memory ran out, or the tokens have a fault.
#[derive(Clone, Copy, Debug, PartialEq, Eq)]
pub enum ReadError {
    /// Memory ran out.
    Memory,
    /// The tokens spell nothing.
    Fault(Fault),
}

impl From<AllocError> for ReadError {
    ghost use Rattle.std.specs.Prelude.{◌≡◌};
    ghost use Rattle.evo_combinators.specs.declared.ReadError.TheVariants.{Memory};

    ghost from_gives = { λ _ e. e ≡ Memory };

    fn from(_: AllocError) -> ReadError {
        ReadError::Memory
    }
}

impl<T: Drop> From<AllocFailed<T>> for ReadError {
    ghost use Rattle.std.specs.Prelude.{◌≡◌};
    ghost use Rattle.evo_combinators.specs.declared.ReadError.TheVariants.{Memory};

    ghost from_gives = { λ _ e. e ≡ Memory };

    fn from(_: AllocFailed<T>) -> ReadError {
        ReadError::Memory
    }
}
