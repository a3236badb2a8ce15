//! What it is to execute an image: single steps, one line of a definition for each instruction, and whole runs of them.
//!
//! `specs/Words` says what words are and what is made of them, `specs/Tables` what is found by name, `specs/Execution` what
//! a step and a run are, and `specs/Loaded` which images the load check lets through. The law `images_have_one_run` says
//! that each of these has exactly one run for each number of ticks. Objects and images stand below in `evo_code`; the
//! machine that does these runs, and all that is said of compiled programs, stand above.
#![tactic(auto)]

mod end;
pub mod laws;

pub use end::{End, MachineFault, Stop, TrapKind};
