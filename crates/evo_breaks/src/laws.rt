//! What the rules say by themselves.

ghost use Rattle.evo_breaks.specs.Laws.{EachUnbroken, KeepsItself};

/// An interface breaks no rule against itself.
pub fn keeps_itself()
    ensures { KeepsItself }
{}

/// Where no rule is broken, each old declaration is tried and breaks none.
pub fn each_unbroken()
    ensures { EachUnbroken }
{}
