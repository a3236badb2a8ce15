//! The words of the command line, and what they ask for.
//!
//! `job_of` answers the job that a list of words spells, or that they spell none. `specs/Words` says which words spell
//! which job, and the law `one_job` that they spell at most one. Names of modules and decimal numbers, of which some
//! words are made, stand below in `evo_lex`; the top call in `evo_driver` stands above.
#![tactic(auto)]

mod laws;
mod words;

pub use laws::one_job;
pub use words::{Job, job_of};
