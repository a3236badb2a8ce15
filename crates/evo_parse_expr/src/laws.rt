//! What the definitions say by themselves.

ghost use Rattle.std.specs.Prelude.{ℕ, List};
ghost use Rattle.evo_tree.specs.Pieces.{Piece};
ghost use Rattle.evo_parse_expr.specs.Laws.{OneAnswer, OneExpression};

/// The tokens of an expression spell one tree.
pub fn one_expression()
    ensures { OneExpression }
{}

/// Tokens are read, refused or too deep at one place, and only one of these.
pub fn one_answer()
    ensures { (d : ℕ) (pieces : List Piece) (at : ℕ) → OneAnswer d pieces at }
{}
