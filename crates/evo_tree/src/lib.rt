//! Syntax trees of libraries, clients and interfaces.
//!
//! `Module` holds a tree that some text spells, but for places. `specs/Modules` says which text spells which tree: the
//! grammar, whose rules stand in `specs/Types`, `Expressions`, `Statements` and `Declarations` over the pieces of
//! `specs/Pieces`; `specs/Bare` says when trees are the same but for places, `specs/Canonical` what their text is. The
//! tokens of `evo_lex` and the rules of `evo_combinators` stand below; the readers, the printer, the round trip and
//! `evo_tree_ops` (copies and sameness) above.
#![tactic(auto)]

mod declaration;
mod expression;
mod module;
mod name;
mod scope;
mod spelled;
mod statement;
mod terminal;

pub use declaration::{
    Accessors, Attr, AttrKind, Availability, Decl, DeclKind, GenericParameter, Header, Modifier,
    ModifierKind, NominalKind, Parameter, ParameterLabel, Payload, Requirement,
};
pub use expression::{Argument, Expr, InfixOperator, Member, Operand, PrefixOperator};
pub use module::{Form, Item, ModulePart, ModuleTree, PartSpot, SourceFault};
pub use name::{Identifier, TypeName};
pub use scope::Scope;
pub use spelled::Module;
pub use statement::{
    AssignmentOperator, Binding, Block, Branch, Clause, ClauseLabel, Introducer, Pattern, Stmt,
};
pub use terminal::{Role, Terminal};
