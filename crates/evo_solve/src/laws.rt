//! What the definitions say of each other.

ghost use Rattle.evo_solve.specs.Laws.{OneCanonical, OneFirstPath};

/// Equal types have one canonical type.
pub fn one_canonical()
    ensures { OneCanonical }
{}

/// A type has at most one first path to a protocol.
pub fn one_first_path()
    ensures { OneFirstPath }
{}
