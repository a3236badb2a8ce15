//! Refusals of readers, and what is done at one.

ghost use Rattle.std.specs.Prelude.{◌≡◌, ℕ, IsTrue, ◌↔◌};

use evo_combinators::{Fault, ReadError};

/// The fault that the first of so many tokens opens one nesting too many.
pub fn too_deep(left: usize) -> ReadError
    ensures { result ≡ ReadError.Fault (Fault.Deep left) }
{
    ReadError::Fault(Fault::Deep(left))
}

/// Whether the first of so many tokens is refused.
pub fn is_refusal(error: ReadError, left: usize) -> bool
    ensures { IsTrue result ↔ (error ≡ ReadError.Fault (Fault.Grammar left)) }
{
    match error {
        ReadError::Fault(Fault::Grammar(at)) => at == left,
        _ => false,
    }
}

/// Lets go of what was read before a fault.
pub fn discard<T: Drop>(_read: T) {}
