//! Resolved modules.
//!
//! | part | who reads it |
//! |---|---|
//! | `decls` | every look-up of a declaration by key, of members and of ancestors |
//! | `memberwise` | look-ups of initialisers: typing, the meaning of programs, lowering |
//! | `bodies` | the meaning of programs, lowering, what is copied into clients |
//! | `RConformance.witnesses`, `types` | the meaning of programs, thunks, rules of evolution, interfaces |
//! | `RConformance.subtables`, `RProtocol` | records of conformances and protocols; followed where a path goes on |
//! | `RWitness.reach` | the meaning of programs and thunks (whether the object's class decides) |
//! | `kind`, `name`, `release` | interfaces, lowering (names of symbols, whether something is copied) |

use crate::expression::Reach;
use crate::lists::{Bodies, Conformances, Decls};
use crate::resolved_type::{RReference, RType};
use evo_base::{Key, List, Name, Release};

/// What a module was read as.
#[derive(Clone, Copy, PartialEq, Eq)]
pub enum ModuleKind {
    Library,
    Client,
    Interface,
}

/// A requirement, and the member that meets it. Nothing stands for the protocol's default.
#[derive(Drop)]
pub struct RWitness {
    pub requirement: Key,
    pub member: Option<Key>,
    /// Dispatched where the member is a function of a class that is not final.
    pub reach: Reach,
}

/// An associated type of a conformance, by its name.
#[derive(Drop)]
pub struct RTypeWitness {
    pub name: Name,
    pub ty: RType,
}

/// A subtable by its name, which is the key of an inherited protocol or of a constraint of an associated type, with the
/// conformance that stands there. Nothing stands where a protocol has no default for it.
#[derive(Drop)]
pub struct RSubtable {
    pub name: Key,
    pub conformance: Option<Key>,
}

/// A declared conformance with its members.
#[derive(Drop)]
pub struct RConformance {
    pub key: Key,
    /// The type that conforms.
    pub conformer: Key,
    /// The protocol, where it is named.
    pub protocol: RReference,
    /// One for each requirement of the protocol, in its order.
    pub witnesses: List<RWitness>,
    /// One for each associated type of the protocol, in its order.
    pub types: List<RTypeWitness>,
    /// One for each protocol that is inherited, and then for each constraint of an associated type, in their order. Each
    /// has its conformance.
    pub subtables: List<RSubtable>,
}

/// A requirement, and the member of an extension of its protocol that stands in for a member that is wanting, if any.
#[derive(Drop)]
pub struct RDefault {
    pub requirement: Key,
    pub member: Option<Key>,
}

/// A protocol with its defaults.
#[derive(Drop)]
pub struct RProtocol {
    pub key: Key,
    /// One for each requirement, in their order.
    pub defaults: List<RDefault>,
    /// One for each protocol that is inherited, and then for each constraint of an associated type, in their order. A
    /// constraint has the conformance of the associated type's default, where there is one.
    pub subtables: List<RSubtable>,
}

/// A resolved module. A client's name is `main`. A key is found in its lists without going through them, and contracts see
/// each as the list.
#[derive(Drop)]
pub struct RModule {
    pub kind: ModuleKind,
    pub name: Name,
    /// There exactly in an interface.
    pub release: Option<Release>,
    /// One for each declaration of the tree, in the order of the text: what stands at top level, and behind a type or an
    /// extension its members.
    pub decls: Decls,
    /// The initialisers that structs have without writing them, in the order of the structs.
    pub memberwise: Decls,
    /// In the order of the text.
    pub protocols: List<RProtocol>,
    /// In the order of the text.
    pub conformances: Conformances,
    /// In the order of the text, a client's top level last.
    pub bodies: Bodies,
}
