//! Prints modules as their canonical text.
//!
//! `print` answers the canonical text of any module, which `specs/Canonical` of `evo_tree` defines as a fold over the
//! tree; `specs/Texts` says it by the parts of a tree, which each function here appends to what is printed so far. The
//! trees of `evo_tree` stand below; the round trip, by which such a text is read again, stands above.
#![tactic(auto)]

mod body;
mod canonical;
mod declaration;
mod expression;
mod header;
mod label;
mod literal;
mod part;
mod pattern;
mod printer;
mod statement;
mod words;

pub use canonical::print;
