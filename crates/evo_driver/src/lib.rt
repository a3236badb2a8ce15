//! The top call: what the words ask for, done over files and sinks.
//!
//! `swevo` is what the program calls. `specs/Answer` says which bytes and which status words and files ask for,
//! `specs/Files` what a job finds in its files and which event is the first, and `specs/Top` what the call leaves
//! by its status; `specs/Laws` that there is one answer. Below stand all crates that read, accept, check, build and run;
//! above stands the program alone.
#![tactic(auto)]

mod job;
mod laws;
mod load;
mod reply;
mod report;
mod run;
mod status;
mod stop;
mod top;

pub use laws::one_answer;
pub use status::Status;
pub use top::swevo;
