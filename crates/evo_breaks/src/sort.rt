//! What a declaration is to the rules.

/// What is sought under the key of a declaration.
#[derive(Clone, Copy, PartialEq, Eq)]
pub enum Sort {
    /// A type or protocol.
    Nominal,
    /// A function, an initialiser or a property that is no requirement.
    Member,
    /// A function, an initialiser or a property that a protocol requires.
    Requirement,
    AssociatedType,
    Case,
    /// An extension, a `typealias`, or a function that overrides.
    Untried,
}
