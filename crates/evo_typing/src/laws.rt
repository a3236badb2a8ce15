//! What the definitions of typing say of each other.

ghost use Rattle.evo_typing.specs.Laws.{AnswerIsExact, FaultExcludesTree, OneTree, TypingSurvives, WalkIsExact};

/// An expression has at most one resolved tree.
pub fn one_tree()
    ensures { OneTree }
{}

/// A fault excludes a resolved tree.
pub fn fault_excludes_tree()
    ensures { FaultExcludesTree }
{}

/// A checker that answers a resolved tree or a fault answers exactly: its tree is the only one, and it answers a fault
/// only where there is no tree.
pub fn answer_is_exact()
    ensures { AnswerIsExact }
{}

/// The walk of the definitions, where its questions are answered, finds what an expression denotes, or a fault.
pub fn walk_is_exact()
    ensures { WalkIsExact }
{}

/// A resolved tree keeps its types where the declarations grow.
pub fn typing_survives()
    ensures { TypingSurvives }
{}
