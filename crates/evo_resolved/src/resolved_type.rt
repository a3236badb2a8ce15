//! Types in place of their names.
//!
//! | part | who reads it |
//! |---|---|
//! | `RType` | typing, layouts and lowering (what is boxed); evaluation reads none |
//! | `RTypeName.place`, `RReference.place` | the faults of headers and bodies |
//! | `RTypeName.aliases` | availability, hidden names in inlinable bodies, what is copied into clients, interfaces |

use evo_base::{Key, List, Name, Place};

/// A type. In a protocol and its extensions `Self` is the parameter 0, and the generic parameters of a function follow;
/// elsewhere the generic parameters of a function begin with 0.
#[derive(Drop)]
pub enum RType {
    /// A struct, an enum, a class, or one of the types of the language, by its key, which has no labels and no marks.
    Named(Key),
    /// A parameter, by its number.
    Param(u32),
    /// An associated type of a parameter: its number, and the names behind it, of which there is one at least.
    Assoc(u32, List<Name>),
    /// What a function without a result gives.
    NoValue,
}

/// A type where it is written, with the `typealias` declarations by which its names lead to it, in the order in which
/// they are met. No requirement has been used: `T.A` stays so where a `where` makes it equal to another type.
#[derive(Drop)]
pub struct RTypeName {
    pub place: Place,
    pub aliases: List<Key>,
    pub ty: RType,
}

/// A type or protocol named in a header by its own name: what a declaration inherits, conforms to or extends, and what a
/// parameter conforms to.
#[derive(Drop)]
pub struct RReference {
    pub place: Place,
    pub key: Key,
}
