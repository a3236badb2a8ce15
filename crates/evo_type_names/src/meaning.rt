//! The types that names lead to.

use crate::aliases::AliasId;
use evo_base::Name;
use evo_declarations::TypeId;

/// A type, or where a path of names begins.
#[derive(Clone, Copy)]
pub enum TypeHead<'a> {
    Named(TypeId<'a>),
    /// A parameter; with names behind it, its associated type.
    Parameter(u32),
    NoValue,
}

/// What a written type means: a type, and the `typealias`es that are met on the way to it. Only a parameter has names
/// behind it.
#[derive(Drop)]
pub struct Meaning<'a> {
    pub aliases: Vec<AliasId<'a>>,
    pub head: TypeHead<'a>,
    pub path: Vec<&'a Name>,
}
