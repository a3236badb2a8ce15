//! What a body sees.

use evo_resolved::{ModuleKind, RDecl};

/// The declarations that a body sees, and where it stands.
#[derive(Clone, Copy)]
pub struct Site<'a> {
    /// Those of its module.
    pub own: &'a [RDecl],
    /// Those of the interface that its module imports.
    pub imported: &'a [RDecl],
    pub form: ModuleKind,
    /// Its declaration is `@inlinable`.
    pub inlinable: bool,
}
