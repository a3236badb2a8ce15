//! What all crates share: names, keys, lists, places, tokens and kinds of fault; and files and sinks.
//!
//! Files and sinks are traits, whose state contracts see as one record (`specs/States`); what a call may do to it
//! stand in `specs/Content` and `specs/Causes`. The fakes in memory keep them and say which call fails
//! (`specs/MemFilesState`, `specs/MemSinkState`); the edge over the system (`disk.rt`) tells no content.
//! Below stands the kit alone; all other crates stand above.
#![tactic(auto)]

mod disk;
mod entry;
mod fault_kind;
mod files;
mod key;
mod keyword;
mod list;
mod mem_files;
mod mem_sink;
mod name;
mod name_table;
mod place;
mod plan;
mod sink;
mod token;

pub use disk::{DiskFiles, StdSink};
pub use fault_kind::FaultKind;
pub use files::{Failed, Files, GetFault};
pub use key::{Key, Mark, Part, ProtocolName};
pub use keyword::{KEYWORDS, is_keyword, is_one_of};
pub use list::List;
pub use mem_files::MemFiles;
pub use mem_sink::MemSink;
pub use name::Name;
pub use name_table::NameTable;
pub use place::{Place, Release};
pub use sink::Sink;
pub use token::{Token, TokenKind};
