//! The faults of names in a module's headers: what is taken, what is none, and what is past a limit.
//!
//! `evo_names` says what a fault is (`specs/Faults`); here stands the code. An answer is a fault of the definition, and
//! where none is answered each fault is one of those of `specs/Others`: that a declaration meets one that is seen of the
//! import, or that a written type means nothing.
#![tactic(auto)]

mod conformances;
mod header;
mod met;
mod second;
mod taken;
mod type_keys;
mod unknown;

pub use header::header_fault;
pub use met::own_meeting;
pub use second::second_conformance;
