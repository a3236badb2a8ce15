//! What is declared of conformances. The table of declarations makes it once; protocols have numbers in it, so that no
//! step is sought by its key.

use evo_base::{Key, List, Name};
use evo_resolved::RType;

/// A subtable of a conformance: that of an inherited protocol, or of a constraint of an associated type.
#[derive(Drop)]
pub struct Subtable {
    /// The key by which paths name it.
    pub name: Key,
    /// The associated type that is constrained; nothing for an inherited protocol.
    pub associated: Option<Name>,
    /// The number of the protocol to which it leads.
    pub protocol: usize,
}

/// A protocol with its subtables: one for each protocol that it inherits, and then one for each constraint of an
/// associated type, in the order of the text.
#[derive(Drop)]
pub struct Protocol {
    pub key: Key,
    pub subtables: List<Subtable>,
}

/// A declared conformance.
#[derive(Drop)]
pub struct DeclaredConformance {
    pub key: Key,
    /// The type that conforms, which is a named one.
    pub conformer: RType,
    /// The protocol, by its key.
    pub protocol: Key,
}

/// What the declarations of a module, and of the interface that it imports, say of conformances.
#[derive(Drop)]
pub struct Declarations {
    pub protocols: List<Protocol>,
    /// In the order of their declaration.
    pub conformances: List<DeclaredConformance>,
}
