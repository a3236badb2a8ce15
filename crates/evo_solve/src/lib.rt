//! What requirements make of types: which are equal, which one stands for its equals, and how a type comes to conform.
//!
//! `specs` says it: `Equal` is the relation, `Canonical` the type that stands for its equals and when requirements
//! conflict, `Words` the order of the required conformances, `Ways` the paths of conformances and which is the first,
//! `Stands` what a type is at given type arguments. Signatures and types stand below in `evo_resolved`; typing, the
//! checks of declarations and lowering stand above, and the table of declarations hands in `Declarations`.
#![tactic(auto)]

mod best;
mod classes;
mod conflict;
mod conforming;
mod declarations;
mod distance;
mod graph;
mod laws;
mod order;
mod path;
mod representative;
mod route;
mod universe;
mod words;

pub use conflict::first_conflict;
pub use conforming::conformance;
pub use declarations::{Declarations, DeclaredConformance, Protocol, Subtable};
pub use laws::{one_canonical, one_first_path};
pub use path::{Path, SolveFault, Word};
pub use representative::canonical;
pub use words::table_words;
