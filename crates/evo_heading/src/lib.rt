//! The two lines with which the text of an interface begins: its module's name and its release.
//!
//! `heading` answers the heading with which a text begins, or that it begins with none. `IsHeading` of `evo_tree` says
//! what a heading is, `specs/Heading` of which parts it is made, and the law `one_heading` that there is at most one.
//! Names of modules and decimal numbers stand below in `evo_lex`; `evo_parse`, which reads whole modules, stands above.
#![tactic(auto)]

mod laws;
mod lines;
mod parts;
mod reading;
#[cfg(test)]
mod tests;

pub use laws::one_heading;
pub use lines::Heading;
pub use reading::heading;
