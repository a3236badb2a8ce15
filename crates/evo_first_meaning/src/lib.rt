//! That the meaning of the first form is a case of what programs mean.
//!
//! The program answers by the meaning of the first form (`evo_first_code/specs/Meaning`). `specs/Resolved` gives the resolved
//! trees of such a program, and the law says that what these mean (`evo_meaning`) prints and ends the same for every number
//! of ticks. Both meanings stand below; nothing of the program stands on this crate.
#![tactic(auto)]

mod laws;

pub use laws::first_form_is_a_case;
