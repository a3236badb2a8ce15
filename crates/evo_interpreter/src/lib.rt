//! Parts of the machine that does the runs of images, as `evo_execution` defines them.
//!
//! `words` and `state` hold words, frames and objects; `specs/States` says which state of the definition they are.
//! `operands` reads and puts words, and `plain`, `objects`, `strings`, `print`, `tables`, `enter` and `calls` have a function for each
//! instruction, whose clause is the definition's line; `do_step` does the one at which a run stands. Images and the definition stand below,
//! whole runs above in `evo_runs`.
#![tactic(auto)]

mod calls;
mod enter;
mod halt;
mod integers;
mod objects;
mod operands;
mod plain;
mod print;
mod state;
mod step;
mod strings;
mod tables;
mod text;
mod word;
mod words;

pub use enter::push_frame;
pub use halt::Effect;
pub use integers::{computed, ordered};
pub use operands::{room, room_before};
pub use state::{Frame, Frames, Object, State};
pub use step::do_step;
pub use text::Text;
pub use word::Word;
pub use words::Words;
