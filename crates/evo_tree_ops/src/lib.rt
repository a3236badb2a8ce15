//! Copies of trees, and whether two trees are the same but for places.
//!
//! `Copied` gives an equal tree; `same` and `same_tree` decide `evo_tree`'s definition `specs/Bare`, by which trees
//! are the same where they are equal without their places. Both go over the trees of `evo_tree`, which stands below
//! with the definitions. Nothing stands above but tests: the program neither copies nor compares trees.
#![tactic(auto)]

mod compared;
mod copy;
mod copy_declaration;
mod copy_expression;
mod copy_module;
mod copy_name;
mod copy_statement;
mod same_declaration;
mod same_expression;
mod same_module;
mod same_name;
mod same_statement;

pub use copy::Copied;
pub use same_module::{same, same_tree};
