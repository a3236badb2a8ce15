//! What the rules say by themselves.

ghost use Rattle.evo_rules.specs.Laws.{KeepsItself};

/// An interface breaks no rule against itself.
pub fn keeps_itself()
    ensures { KeepsItself }
{}
