//! What the grammar of statements says by itself.

ghost use Rattle.std.specs.Prelude.{◌≡◌, ℕ, List, Bool};
ghost use Rattle.evo_tree.specs.declared.statement.Block.{Block};
ghost use Rattle.evo_tree.specs.declared.statement.Stmt.{Stmt};
ghost use Rattle.evo_tree.specs.Pieces.{Piece};
ghost use Rattle.evo_tree.specs.Statements.{IsBlock, IsStmt};

/// Tokens spell at most one statement, whatever the nesting.
pub fn one_statement()
    ensures { (inits : Bool) (d e : ℕ) (us : List Piece) (a b : Stmt) → IsStmt inits d us a → IsStmt inits e us b → a ≡ b }
{}

/// Tokens spell at most one block, whatever the nesting.
pub fn one_block()
    ensures { (inits : Bool) (d e : ℕ) (us : List Piece) (a b : Block) → IsBlock inits d us a → IsBlock inits e us b → a ≡ b }
{}
