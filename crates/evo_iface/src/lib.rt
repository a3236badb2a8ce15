//! Textual interfaces of the first form: writing them and reading them again. Tables of the names that
//! an interface declares.
//!
//! `interface_of` answers the text of a library's interface, `read_interface` the interface of a text, or that it has
//! none; `specs/Text` says which text an interface has. Interfaces are those of `evo_first_form`, and decimal numbers
//! are read by `evo_lex`, below; acceptance and the rules of evolution stand above.
#![tactic(auto)]

mod reading;
mod table;
mod term;
mod texts;
mod writing;

pub use reading::read_interface;
pub use table::declared_table;
pub use writing::interface_of;
