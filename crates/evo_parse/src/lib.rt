//! Reads whole modules: the sources of libraries and clients, and interfaces.
//!
//! `parse` answers the module that the tokens of a text spell in a form, or the first fault, in the grammar's own terms
//! (`specs/Contract`, over `Modules` of `evo_tree`); `read_module` does so for a text (`specs/Text`). Below stand the readers
//! of the parts: `evo_heading`, `evo_parse_decl`, `evo_parse_stmt`, `evo_parse_expr`. Above, `evo_front` accepts modules.
#![tactic(auto)]

mod laws;
mod parser;
mod part;
mod text;

pub use laws::{no_fault, one_fault, one_module};
pub use parser::parse;
pub use text::{TextFault, read_module};
