//! What a module says once its names are resolved: keys and numbers in place of names, a type for each expression.
//!
//! The types are the definition: `module`, `declaration`, `body`, `statement`, `expression`, `resolved_type` and `path`,
//! each with a table of who reads which part. `same` compares and `copy` copies, both exactly; `lists` finds what a key
//! names (`specs/Found`). Keys and places stand below in `evo_base`, and in `evo_tree` the words that trees and
//! resolved trees share; what names mean, typing, the passes behind it, meaning and lowering stand above.
#![tactic(auto)]

mod body;
mod copy;
mod copy_declaration;
mod copy_use;
mod declaration;
mod expression;
mod keyed;
mod lists;
mod module;
mod path;
mod resolved_type;
mod same;
mod statement;

pub use body::{Body, BodyPart, BodyRole, BodyScope, DeclaredTypes, RBody};
pub use copy::{Copied, copy_list, copy_option};
pub use declaration::{
    Kept, RDecl, RDeclKind, RHeader, RParameter, RPayload, RRequirement, Signature, Standing,
};
pub use expression::{Applied, Builtin, Literal, RExpr, RMember, ROperand, RUse, Reach, Variable};
pub use keyed::{KeyIndex, Keyed, find_in, index_of};
pub use lists::{Bodies, Conformances, Decls};
pub use module::{
    ModuleKind, RConformance, RDefault, RModule, RProtocol, RSubtable, RTypeWitness, RWitness,
};
pub use path::{ConfPath, ConfStart};
pub use resolved_type::{RReference, RType, RTypeName};
pub use same::{same_key, same_labels, same_name, same_names, same_type};
pub use statement::{RBlock, RBranch, RClause, RClauseLabel, RPattern, RPlace, RRoot, RStmt};
