//! What programs mean: what a client that was built against an old interface does when it runs with a new library.
//!
//! `specs` says it over resolved trees, one clause for each form: `Values`, `Runs` (variables, objects, ticks, what is
//! printed), `Programs` (which body runs), `Operators`, `Calls`, `Expressions`, `Statements`, `Bodies`. The laws say what
//! look-ups find and what ticks do. Resolved trees stand below in `evo_resolved`, keys of parts in `evo_names`; above stands
//! `evo_first_meaning`, by whose law the meaning that the program answers by is a case of this one. The program calls nothing
//! of it.
#![tactic(auto)]

mod laws;

pub use laws::{
    bound_is_free, dispatch_stays, end_stays, look_up_finds, output_grows, same_key_is_equality,
    ticks_never_rise,
};
