//! What the definitions say of each other.

ghost use Rattle.evo_declarations.specs.Limits.{PastLimit};

/// The item past a limit that is answered is a fault of its kind, and where none is answered there is none.
pub fn past_limit()
    ensures { PastLimit }
{}
