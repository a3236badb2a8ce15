//! Whole runs of images.
//!
//! `loads` tells the images that the load check lets through, and `Machine::run` does the run of one of these over a sink;
//! `specs/Runs` says what a run leaves of its sink. A machine looks up once which words of a frame the most frequent
//! instructions name (`plan`), and does these without looking at the image (`quick`, `steps`); `specs/Quick` says that they
//! are the same steps. What a run is stands below in `evo_execution`, single steps in
//! `evo_interpreter`, and sinks in `evo_base`.
#![tactic(auto)]

mod calls;
mod load;
mod machine;
mod plan;
mod quick;
mod start;
mod steps;

pub use load::loads;
pub use machine::{Machine, RunStop};
