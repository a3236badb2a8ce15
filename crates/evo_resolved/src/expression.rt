//! Resolved expressions.
//!
//! | part | who reads it |
//! |---|---|
//! | `RUse.key`, `reach`, `paths` | typing, the meaning of programs, lowering; the key also what is copied, hidden names |
//! | `RUse.types`, and every type | typing, and lowering (what is boxed); evaluation reads none |
//! | `RUse.place`, `written` | availability, hidden names in inlinable bodies, the pass on initialisers |
//! | the form, numbers of locals, arguments | every pass over bodies |
//!
//! Every type here is canonical in the signature of the body: of the types that requirements make equal it is the one
//! that stands for all of them. The types as they are declared stand in `BodyScope` and in headers.

use crate::path::ConfPath;
use crate::resolved_type::{RType, RTypeName};
use evo_base::{Key, List, Name, Place};
use evo_tree::{InfixOperator, PrefixOperator};
use sqlite_items::{Boxed, Items};

/// A value that is written out.
#[derive(Drop)]
pub enum Literal {
    Integer(i64),
    Boolean(bool),
    /// By its characters.
    String(Name),
}

/// How a use of a declaration comes to a body.
#[derive(Clone, Copy, PartialEq, Eq)]
pub enum Reach {
    /// The body that stands for the key: functions that are not dispatched, initialisers, accessors, and members of
    /// extensions of protocols.
    Static,
    /// The implementation of the object's class.
    Dispatched,
    /// The witness of a requirement, in the first conformance of the use.
    Witness,
}

/// A use of a function, an initialiser, a case or a property where it is named, with what each parameter of its signature
/// stands for, and how that conforms: a path for each conformance of the signature, in the order of the table words.
/// `Self` of a protocol is the first of both.
#[derive(Drop)]
pub struct RUse {
    pub place: Place,
    /// The declaration that is meant. A function that overrides stands for its root.
    pub key: Key,
    pub reach: Reach,
    /// The type of which it is a member or an initialiser, where that is written.
    pub written: Option<RTypeName>,
    pub types: List<RType>,
    pub paths: List<ConfPath>,
    /// The type of what it gives.
    pub ty: RType,
}

/// A variable in which a place begins.
#[derive(Clone, Copy, PartialEq, Eq)]
pub enum Variable {
    Local(u32),
    /// `self`, written or not.
    SelfValue,
}

/// What the language itself does.
#[derive(Clone, Copy, PartialEq, Eq)]
pub enum Builtin {
    /// `print`, of any number of values.
    Print,
    /// `precondition`, of its condition alone.
    Precondition,
    /// `fatalError`, of nothing.
    Fatal,
}

/// A use with its arguments, one for each parameter.
pub type Applied = (RUse, Items<RExpr>);

/// An operator, and the operand behind it.
pub type ROperand = (InfixOperator, RExpr);

/// What stands behind a dot.
#[cycle(resolved_expressions)]
#[derive(Drop)]
pub enum RMember {
    /// The value of a property.
    Property(RUse),
    /// A call of a function that does not mutate. The value before it is `self`.
    Called(Applied),
    /// A call of a function that mutates. The value before it is an object; `self` is the place to which these
    /// properties of the object lead, of which there is one at least.
    Mutated(List<RUse>, Applied),
}

/// An expression. It has no parentheses: what they group is nested.
#[cycle(resolved_expressions)]
#[derive(Drop)]
pub enum RExpr {
    Literal(Literal),
    /// A local or a parameter, by its number.
    Local(Place, u32, RType),
    /// `self`, written or not.
    SelfValue(Place, RType),
    /// An object as one of an ancestor of its class.
    Upcast(Boxed<RExpr>, RType),
    Prefix(PrefixOperator, Boxed<RExpr>),
    /// Operators of one level from the left, of which there is one at least, and the type of the whole.
    Chain(Boxed<RExpr>, Items<ROperand>, RType),
    /// Members from the left, of which there is one at least.
    Members(Boxed<RExpr>, Items<RMember>),
    /// A call of a function that mutates the place to which these properties of a variable lead.
    Mutate(Variable, List<RUse>, Applied),
    /// A case of an enum with its payload.
    Case(Applied),
    /// A new value or object, by an initialiser, which may be the one that a struct has without writing it.
    New(Applied),
    /// A call without a value before it: a function at top level, or a static one.
    Call(Applied),
    /// `super.m(..)`, of a function that is dispatched.
    Super(Applied),
    Builtin(Place, Builtin, Items<RExpr>),
}
