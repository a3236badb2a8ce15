//! What written types mean: the type to which their names lead, and the `typealias`es that they meet on the way.
//!
//! `evo_names` says what names find and where they lead (`specs/Written`); here stands the code, each answer exactly the
//! definition's. Members are looked up below, in `evo_members`; what needs a meaning, as headers do, stands above.
#![tactic(auto)]

mod aliases;
mod beginning;
mod known;
mod meaning;
mod resolving;
mod round;
mod scope;
mod start;
mod walk;

pub use aliases::AliasId;
pub use known::Known;
pub use meaning::{Meaning, TypeHead};
pub use resolving::{meaning_by, meaning_of};
pub use scope::Scope;
pub use start::Start;
