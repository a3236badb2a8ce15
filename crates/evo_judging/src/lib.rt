//! Judgements: what a checker looks for, what it finds, and what is at fault, said once.
//!
//! A rule of a checker is one term of the combinators in `specs/Judge`. From it come the walk, the relation that holds of
//! what the walk finds, and the faults with their places; a fault is a form's own only where its parts have answers. What
//! makes such a term right stands in `specs/Right`, and `proofs/Judges` has it for each combinator once; `proofs/Steps` is
//! for code that walks as a judgement does. This crate stands on std alone; the checkers stand above.
#![tactic(auto)]

use std::alloc::{AllocError, AllocFailed};

/// Why a checker has no answer: there is a fault, or memory ran out.
#[derive(Drop)]
pub enum CheckError<F> {
    /// What is looked at has this fault.
    Refused(F),
    /// Memory ran out.
    Memory,
}

impl<F> From<AllocError> for CheckError<F> {
    ghost use Rattle.std.specs.Prelude.{◌≡◌};
    ghost use Rattle.evo_judging.specs.declared.CheckError.TheVariants.{Memory};

    ghost from_gives = { λ _ e. e ≡ Memory };

    fn from(_: AllocError) -> CheckError<F> {
        CheckError::Memory
    }
}

impl<F, T: Drop> From<AllocFailed<T>> for CheckError<F> {
    ghost use Rattle.std.specs.Prelude.{◌≡◌};
    ghost use Rattle.evo_judging.specs.declared.CheckError.TheVariants.{Memory};

    ghost from_gives = { λ _ e. e ≡ Memory };

    fn from(_: AllocFailed<T>) -> CheckError<F> {
        CheckError::Memory
    }
}
