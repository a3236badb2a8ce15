//! Resolved declarations. They stand in one list for a module, members behind what they stand in.
//!
//! | part | who reads it |
//! |---|---|
//! | `RDecl.own` | every look-up by key: a function that overrides is found under its own class alone |
//! | `RDecl.key` | what a class implements: a function that overrides stands for its root |
//! | `RDecl.standing` | members of a type, the signature of a property, what a new value begins with |
//! | `RDecl.kind` | every pass; the types are as written, also where a requirement makes them equal to others |
//! | `RDecl.attrs`, `modifiers` | access, dispatch, misplaced words, availability, rules of evolution, interfaces |
//! | `RDecl.place`, `name_place`, other places | faults |
//! | `Signature` | typing, the order of table words, layouts |

use crate::resolved_type::{RReference, RTypeName};
use evo_base::{Key, List, Name, Place};
use evo_tree::{Attr, Introducer, Modifier, NominalKind};

/// A requirement of a signature.
#[derive(Drop)]
pub enum RRequirement {
    /// A type conforms to a protocol.
    Conforms(RTypeName, RReference),
    /// Two types are the same. The place is that of `==`.
    Same(RTypeName, Place, RTypeName),
}

/// The parameters of types with their requirements. Where it stands in a protocol or its extension, the parameter 0 is
/// `Self`, which conforms to the protocol; this stands in no requirement.
#[derive(Drop)]
pub struct Signature {
    pub protocol: Option<Key>,
    /// The generic parameters, in their order, without `Self`.
    pub generics: List<Name>,
    /// As they are written, those of the generic parameters first; one for each protocol.
    pub requirements: List<RRequirement>,
}

/// A parameter. Its label is `_` where it has none.
#[derive(Drop)]
pub struct RParameter {
    pub place: Place,
    pub label: Name,
    pub name: Name,
    pub written: RTypeName,
}

/// The header of a function or an initialiser.
#[derive(Drop)]
pub struct RHeader {
    pub signature: Signature,
    pub parameters: List<RParameter>,
    /// Nothing where it gives no value.
    pub result: Option<RTypeName>,
}

/// A value of a case's payload.
#[derive(Drop)]
pub struct RPayload {
    pub label: Option<Name>,
    pub written: RTypeName,
}

/// How a property is kept.
#[derive(Clone, Copy, PartialEq, Eq)]
pub enum Kept {
    /// A field. It can be set where it is a `var`.
    Stored,
    /// It is computed, and has a setter or not.
    Computed(bool),
}

/// What a declaration stands in.
#[derive(Drop)]
pub enum Standing {
    TopLevel,
    /// The braces of a type or protocol, by its kind and key.
    Braces(NominalKind, Key),
    /// An extension of a type or protocol, by its kind and key. `Int`, `Bool` and `String` are structs here.
    Extension(NominalKind, Key),
}

/// What is declared.
#[derive(Drop)]
pub enum RDeclKind {
    Function(RHeader),
    Initialiser(RHeader),
    Property(Introducer, RTypeName, Kept),
    TypeAlias(RTypeName),
    /// The protocols to which it conforms, and its default.
    AssociatedType(List<RReference>, Option<RTypeName>),
    Case(List<RPayload>),
    /// A type or protocol, its superclass, and the protocols that it conforms to or inherits.
    Nominal(NominalKind, Option<RReference>, List<RReference>),
    /// An extension of a type or protocol, by its kind and key, and the protocols to which it conforms.
    Extension(NominalKind, RReference, List<RReference>),
}

/// A declaration. The key of a function that overrides is its root's; `own` is the key under which its body stands, and
/// differs from `key` there alone. An extension has the keys of what it extends.
#[derive(Drop)]
pub struct RDecl {
    /// The place of the word that begins its kind.
    pub place: Place,
    /// The place of its name, or of the word that begins it where it has none.
    pub name_place: Place,
    pub key: Key,
    pub own: Key,
    pub standing: Standing,
    pub attrs: List<Attr>,
    pub modifiers: List<Modifier>,
    pub kind: RDeclKind,
}
