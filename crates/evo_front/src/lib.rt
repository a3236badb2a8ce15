//! Acceptance: which texts are libraries and clients of the first form.
//!
//! `accept_library` and `accept_client` answer the library or client that a text is, or the first fault of a text that
//! spells no module, or that its module is not accepted; a library comes with its interface. `specs/Texts` says which
//! text is what. Modules are read by `evo_parse`, interfaces by `evo_iface`, and which trees are of the first form says
//! `evo_first_form`, all below; the top call in `evo_driver` stands above.
#![tactic(auto)]

mod calls;
mod client;
mod laws;
mod library;
mod limits;
mod names;

pub use client::{ClientFault, accept_client};
pub use laws::interfaces_are_accepted;
pub use library::{AcceptedLibrary, LibraryFault, accept_library};
pub use limits::FILE_LIMIT;
