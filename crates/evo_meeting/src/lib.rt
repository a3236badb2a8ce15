//! Which declarations meet, and whether any two of a list do.
//!
//! `evo_names` says when two declarations meet (`specs/Meets`); here stands the code, each answer exactly the
//! definition's. The tables of declarations stand above.
#![tactic(auto)]

mod buckets;
mod declared;
mod meeting;
mod memberwise;
mod named;
mod spot;
mod twice;

pub use declared::{context_of, declared_name, push_declared_name, push_declared_names};
pub use meeting::meets;
pub use memberwise::writes_initialisers;
pub use named::{WrittenName, header_of, name_of, overrides};
pub use spot::{Context, Spot};
pub use twice::first_twice;
