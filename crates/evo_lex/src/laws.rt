//! What the definitions of a cut and of a fault say by themselves.

ghost use Rattle.evo_lex.specs.Laws.{OneCut, NoCut, OneFault};

/// A text has at most one cut into tokens.
pub fn one_cut()
    ensures { OneCut }
{}

/// A text with a fault has no cut.
pub fn fault_excludes_cut()
    ensures { NoCut }
{}

/// A text has at most one fault.
pub fn one_fault()
    ensures { OneFault }
{}
