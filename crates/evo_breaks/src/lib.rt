//! The rules of evolution, E1 to E19, over resolved interfaces: which of them a new interface breaks against an old one.
//!
//! `specs/Rules` says the list, `specs/Conditions` when two declarations of one key break a rule, `specs/Found` what a key
//! declares, `specs/Words` and `specs/Same` what is compared. `breaks` answers the list, and `passes` whether it is empty,
//! without memory. `specs/Laws`: an interface breaks no rule against itself, and where the list is empty each old
//! declaration was tried. Resolved modules stand below (`evo_resolved`), the report above (`evo_report`).
#![tactic(auto)]

mod classes;
mod components;
mod conditions;
mod conformances;
mod found;
pub mod laws;
mod passing;
mod protocols;
mod rule;
mod same;
mod sort;
mod tried;
mod words;

pub use passing::passes;
pub use rule::{Break, Rule, Side};
pub use sort::Sort;
pub use tried::breaks;
