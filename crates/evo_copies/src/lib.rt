//! Which functions of a library a client copies.
//!
//! `copies_needed` answers those that the client's code or a copy calls and that are inlinable in the interface, each
//! once, in the order of first reach; `specs/Reach` says that as a relation without a bound. Interfaces and clients are
//! those of `evo_first_form` below; the builder in `evo_first_code` stands above.
#![tactic(auto)]

mod copies;
mod view;

pub use copies::copies_needed;
pub use view::{Copied, View};
