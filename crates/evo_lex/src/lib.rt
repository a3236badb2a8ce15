//! The tokens of a source text, names of modules and decimal numbers: what stands below the grammar.
//!
//! `lex` answers the one cut of a text into tokens and white space, or its first fault. A text is decoded into
//! characters first; `specs/Front` says what stands at the front of a list of characters, `specs/Tokenization` what a
//! whole text is, and `specs/Laws` that it is at most one thing. `specs/ModuleName` says what may name a module, and
//! `specs/Decimal` which number a text is. The keywords of `evo_base` stand below; all that reads texts stands above.
#![tactic(auto)]

mod class;
mod comment;
mod decimal;
mod front;
mod identifier;
mod laws;
mod lexer;
mod module_name;
mod number;
mod operator;
mod peek;
mod quote;
mod spot;
mod unescape;
mod word;

pub use decimal::number_of;
pub use identifier::is_identifier;
pub use laws::{fault_excludes_cut, one_cut, one_fault};
pub use lexer::{LexFault, end_place, lex};
pub use module_name::is_module;
pub use number::integer_value;
pub use unescape::string_value;
