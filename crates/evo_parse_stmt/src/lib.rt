//! Reads statements, blocks, clauses and patterns, over the tokens of a text as the grammar sees them.
//!
//! `statement`, `block` and `pattern` answer what the readers of `specs/Read` do, which `proofs/Family` ties to the
//! grammar (`Statements` of `evo_tree`) at each nesting. What a reader is given of the next nesting is a function value,
//! of which `specs/ReadsInner` says what it does. Below stand the readers of expressions (`evo_parse_expr`), above
//! those of declarations and modules.
#![tactic(auto)]

mod label;
mod laws;
mod lead;
mod matching;
mod sequence;
mod single;

pub use laws::{one_block, one_statement};
pub use matching::pattern;
pub use single::{block, statement};
