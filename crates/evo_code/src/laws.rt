//! What the definitions of symbols say.

ghost use Rattle.evo_code.specs.Laws.{DifferentSymbols};

/// Different keys have different symbols where they have a context, plain names, and no thunk before their last mark.
pub fn different_symbols()
    ensures { DifferentSymbols }
{}
