//! Where a declaration stands.

/// What a declaration stands in.
#[derive(Clone, Copy, PartialEq, Eq)]
pub enum Scope {
    TopLevel,
    Struct,
    /// A struct with `@frozen`.
    FrozenStruct,
    Enum,
    Class,
    Protocol,
    Extension,
}
