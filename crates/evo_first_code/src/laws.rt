//! What the symbols of objects are.

ghost use Rattle.evo_first_code.specs.Keys.{AreKeySymbols};

/// Objects of the first form have the symbols that the keys of their functions have.
pub fn symbols_are_of_keys()
    ensures { AreKeySymbols }
{}
