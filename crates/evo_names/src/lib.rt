//! What names mean: the declarations of a module, their keys, what is seen from where, and what a name finds.
//!
//! `specs` says it over the flat list of the declarations of a module and of the interface that it imports: `Listed`,
//! `Meets`, `Heads`, `Seen`, `Keys` and what stands on them, one file a subject. The laws say what the definitions have
//! in common. The trees stand below (`evo_tree`, `evo_resolved`); tables, checkers, interfaces and rules above.
#![tactic(auto)]

mod declared_name;
mod laws;

pub use declared_name::{DeclaredName, Sort};
pub use laws::{different_keys, one_declared, one_key, one_meaning};
