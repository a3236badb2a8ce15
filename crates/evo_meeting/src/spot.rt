//! Declarations by their names, borrowed from trees.

use evo_base::{Name, Place};
use evo_declarations::TypeId;
use evo_names::Sort;

/// What a declaration stands in: the top level of a module, or a type or protocol.
#[derive(Clone, Copy)]
pub enum Context<'a> {
    Module(&'a Name),
    Type(TypeId<'a>),
}

/// A declaration by its name: where it stands, and what it is there.
#[derive(Drop)]
pub struct Spot<'a> {
    pub place: Place,
    /// The module that declares it.
    pub module: &'a [u8],
    pub context: Context<'a>,
    pub base: &'a [u8],
    /// Of what is called; a parameter without one has `_`.
    pub labels: Option<Vec<&'a [u8]>>,
    pub sort: Sort,
    /// A requirement of a protocol.
    pub requirement: bool,
    /// A member of an extension.
    pub extends: bool,
    pub is_static: bool,
    /// A function that overrides another.
    pub overrides: bool,
}
