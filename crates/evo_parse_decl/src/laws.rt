//! What the grammar of declarations and modules says by itself.

ghost use Rattle.std.specs.Prelude.{◌≡◌, ℕ, List, Bool};
ghost use Rattle.evo_tree.specs.declared.declaration.Decl.{Decl};
ghost use Rattle.evo_tree.specs.Pieces.{Piece};
ghost use Rattle.evo_tree.specs.Declarations.{IsDeclaration};
ghost use Rattle.evo_tree.specs.declared.module.Form.{Form};
ghost use Rattle.evo_tree.specs.declared.module.ModulePart.{ModulePart};
ghost use Rattle.evo_tree.specs.Modules.{Parts};
ghost use Rattle.evo_parse_decl.specs.Closed.{BlockAt, StmtAt};

/// Tokens spell at most one declaration at the top level, whatever the nesting.
pub fn one_declaration()
    ensures { (interface : Bool) (d e : ℕ) (us : List Piece) (a b : List Decl) → IsDeclaration BlockAt interface d us a → IsDeclaration BlockAt interface e us b → a ≡ b }
{}

/// Tokens spell the parts of at most one module of a form, whatever the nesting.
pub fn one_module()
    ensures { (f : Form) (d e : ℕ) (us : List Piece) (a b : List ModulePart) → Parts BlockAt StmtAt f d us a → Parts BlockAt StmtAt f e us b → a ≡ b }
{}
