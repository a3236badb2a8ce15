//! Names as they are written.

use evo_base::{List, Name, Place};

/// A name where it is written.
#[derive(Drop)]
pub struct Identifier {
    pub place: Place,
    pub text: Name,
}

/// A type where it is written: a name or `Self`, and the names behind its dots. There is at least one name.
#[derive(Drop)]
pub struct TypeName {
    pub place: Place,
    pub names: List<Name>,
}
