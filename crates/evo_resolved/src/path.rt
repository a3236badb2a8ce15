//! How a type comes to conform to a protocol.
//!
//! | part | who reads it |
//! |---|---|
//! | `start`, `steps` | typing, the meaning of programs (which table a call gets), lowering (which word holds it) |

use evo_base::{Key, List};

/// Where the path of a conformance begins.
#[derive(Drop)]
pub enum ConfStart {
    /// At a conformance that the signature requires: its number, from 0, in the order of the table words.
    Required(u32),
    /// At a declared conformance, by its key.
    Declared(Key),
}

/// A path to a conformance: where it begins, and the subtables on the way. A subtable is named by the key of an
/// inherited protocol or of a constraint of an associated type.
#[derive(Drop)]
pub struct ConfPath {
    pub start: ConfStart,
    pub steps: List<Key>,
}
