//! Where types are written.

use evo_declarations::TypeId;

/// What `Self` means in a protocol.
#[derive(Clone, Copy)]
pub enum SelfType<'a> {
    /// A type that conforms to it.
    Named(TypeId<'a>),
    /// Any type that does: the parameter 0.
    Parameter,
}

/// What stands round a written type.
#[derive(Clone, Copy)]
pub enum Around<'a> {
    Nowhere,
    InType(TypeId<'a>),
    InProtocol(TypeId<'a>, SelfType<'a>),
}

/// What is written in a `typealias`, or as the default of an associated type: the declaration's number, and what stands
/// round it.
#[derive(Clone, Copy)]
pub struct Located<'a> {
    pub number: usize,
    pub around: Around<'a>,
}
