//! Reads declarations, over the tokens of a text as the grammar sees them.
//!
//! `declaration` answers what the reader of `specs/Read` does, which `proofs/Whole` ties to the grammar (`Declarations` of
//! `evo_tree`) at each nesting; `specs/ReadModules` has the readers of whole modules, which `proofs/ModuleParts` and
//! `proofs/ClientParts` tie to it. Below stand the readers of headers (`evo_parse_header`) and of blocks
//! (`evo_parse_stmt`), above `evo_parse`.
#![tactic(auto)]

mod block;
mod decl;
mod kind;
mod laws;
mod member;
mod property;
mod top_level;

pub use laws::{one_declaration, one_module};
pub use member::starts_below;
pub use top_level::{begins_declaration, declaration};
