//! What a declaration is to the others of its context.

use evo_base::{List, Name, Place};

/// What sort of name a declaration has.
#[derive(Clone, Copy, PartialEq, Eq)]
pub enum Sort {
    Function,
    Initialiser,
    Property,
    /// A type or protocol.
    Type,
    Case,
    /// A `typealias` or an associated type.
    Alias,
}

/// A declaration by its name: its place, its module, where it stands, and what it is there.
#[derive(Drop)]
pub struct DeclaredName {
    pub place: Place,
    /// The module that declares it.
    pub module: Name,
    /// The module of the type in which it stands and the type's name; at top level the module alone.
    pub context: List<Name>,
    pub base: Name,
    pub labels: Option<List<Name>>,
    pub sort: Sort,
    /// A requirement of a protocol.
    pub requirement: bool,
    /// A member of an extension.
    pub extends: bool,
    pub is_static: bool,
    /// A function that overrides another.
    pub overrides: bool,
}
