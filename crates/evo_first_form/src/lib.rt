//! The trees of the first form of library and client.
//!
//! A library of this form is a list of functions without parameters, each of which returns an integer or what another
//! function returns. A client imports one library and prints integers and what its functions return. `library_of` and
//! `client_of` answer which of them a module is; `specs/FirstForm` says it as a condition on trees, and `specs/Accepted`,
//! `Interface` and `Rules` what is accepted, shown and kept. Trees (`evo_tree`) stand below; all that builds stands above.
#![tactic(auto)]

mod clients;
mod laws;
mod libraries;
mod only;
mod terms;
mod words;

pub use clients::client_of;
use evo_base::{List, Name};
pub use laws::{client_facts, library_facts};
pub use libraries::library_of;
pub use words::is_name;

/// Who may use a function.
#[derive(Clone, Copy, Debug, PartialEq, Eq)]
pub enum Access {
    /// The library alone: `internal`, or nothing is written.
    Internal,
    /// Clients too, which call it in the library that they run with: `public`.
    Public,
    /// Clients too, which copy its body into their own code: `@inlinable public`.
    Inlinable,
}

/// An integer below 2^63, or a call without arguments.
#[derive(Debug, Drop)]
pub enum Term {
    Integer(u64),
    Call(Name),
}

/// `func NAME() -> Int { return TERM }`.
#[derive(Debug, Drop)]
pub struct Function {
    pub access: Access,
    pub name: Name,
    pub body: Term,
}

/// `print(TERM, TERM ..)`: one line, with single spaces between the values.
#[derive(Debug, Drop)]
pub struct Print {
    pub terms: List<Term>,
}

/// `import NAME` and then calls of `print`.
#[derive(Debug, Drop)]
pub struct Client {
    pub import: Name,
    pub prints: List<Print>,
}

/// What an interface says of a function: its name, and its body where clients may copy that.
#[derive(Debug, Drop)]
pub struct Declaration {
    pub name: Name,
    pub body: Option<Term>,
}

/// What a client is built from: the module's name and the functions that clients see, in source
/// order. The release is 1.0.
#[derive(Debug, Drop)]
pub struct Interface {
    pub name: Name,
    pub functions: List<Declaration>,
}
