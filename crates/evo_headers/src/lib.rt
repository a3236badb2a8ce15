//! Declarations once the names of their headers are resolved.
//!
//! `evo_names` says what a declaration's resolved form is (`specs/Resolved`); here stands the code. What written types mean
//! stands below, and keys; tables of resolved declarations stand above.
#![tactic(auto)]

mod declared;
mod gap;
mod headers;
mod inherited;
mod kinds;
mod owned;
mod references;
mod requirements;
mod scopes;
mod site;
mod types;

pub use declared::declared_of;
pub use scopes::scope_of;
