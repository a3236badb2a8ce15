//! What the definitions of names say of each other.

ghost use Rattle.evo_names.specs.Laws.{DifferentKeys, OneDeclared, OneKey, OneMeaning};

/// Two declarations that do not meet have different keys by where they stand.
pub fn different_keys()
    ensures { DifferentKeys }
{}

/// Where no two declarations meet, different ones have different keys.
pub fn one_key()
    ensures { OneKey }
{}

/// A written type means at most one type, and meets the same `typealias`es on each way to it.
pub fn one_meaning()
    ensures { OneMeaning }
{}

/// A declaration of the text has at most one form once its names are resolved: what its names mean decides it whole.
pub fn one_declared()
    ensures { OneDeclared }
{}
