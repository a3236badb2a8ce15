//! The round trip: what is printed is read again.
//!
//! `specs/RoundTrip` says it: the canonical text of a tree that some text spells, in the tree's form, spells a
//! tree that is the same but for places. The proof goes over the grammar, production by production: what a rule
//! spells is written as tokens (`proofs/Written`, `proofs/Prints`), written tokens are cut as they are written
//! (`proofs/WrittenCuts`), and whatever pieces match them, the rule spells the same with them again.
#![tactic(auto)]

mod laws;

pub use laws::{canonical_text_is_read_again, module_is_read_again};
