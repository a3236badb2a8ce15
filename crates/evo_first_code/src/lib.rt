//! Objects of the first form, and their linking.
//!
//! `build_library` and `build_client` make objects, `link` the image of two. `specs/Meaning` says what a client's source
//! does, `specs/Works` that the image of an old client's object and a new library's object does the same, and
//! `specs/Linking` what linking answers. Copies (`evo_copies`), objects and images (`evo_code`) and their execution
//! (`evo_execution`) stand below; the top call in `evo_driver` stands above.
#![tactic(auto)]

mod client;
mod code;
mod imports;
pub mod laws;
mod library;
mod linker;
mod object;
mod symbol;

pub use client::build_client;
pub use library::build_library;
pub use linker::{LinkFault, link};
