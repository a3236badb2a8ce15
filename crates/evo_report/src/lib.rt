//! The report on broken rules of evolution: `RULE old KEY new KEY: TEXT`, a line for each.
//!
//! `specs/Report` says what each line is. A key's text is that of its symbol (`evo_code`), so the two never differ.
//! The rules stand below in `evo_breaks`; the commands that print the report stand above.
#![tactic(auto)]

mod lines;

pub use lines::report;
