//! Bodies, before and after their names are resolved.
//!
//! | part | who reads it |
//! |---|---|
//! | `Body` | typing |
//! | `RBody.owner`, `block` | every pass over bodies, the meaning of programs, lowering |
//! | `BodyScope.role` | typing, the pass on paths, lowering (what a body gives back) |
//! | `BodyScope.standing` | the meaning of programs (what a new value begins with, which class `super` is) |
//! | `BodyScope.self_type`, `result`, `locals` | typing, lowering (canonical: what expressions have) |
//! | `BodyScope.declared` | lowering (as written: what is boxed where the body begins and ends) |
//! | `BodyScope.signature` | typing, lowering (its table words) |

use crate::declaration::{RDecl, Signature, Standing};
use crate::resolved_type::RType;
use crate::statement::RBlock;
use evo_base::{Key, List};
use evo_tree::Block;

/// Which part of its declaration a body is.
#[derive(Clone, Copy, PartialEq, Eq)]
pub enum BodyPart {
    /// The whole: a function, an initialiser, or a declaration without a body.
    Whole,
    Getter,
    Setter,
}

/// A body of a module, before its names are resolved. There is no block where the text has none; then its header alone
/// is looked at.
#[derive(Drop)]
pub struct Body {
    pub owner: Key,
    /// The declaration with its header. A client's top level has none.
    pub decl: Option<RDecl>,
    pub part: BodyPart,
    pub block: Option<Block>,
}

/// What a body does with `self`.
#[derive(Clone, Copy, PartialEq, Eq)]
pub enum BodyRole {
    /// It gives none back: a function that does not mutate, a getter, or a class's setter.
    Plain,
    /// It gives the new one back: a function that mutates, or any other setter.
    Mutating,
    /// An initialiser of a struct, an enum or a type of the language, which makes it.
    ValueInitialiser,
    /// An initialiser of a class, which fills the object.
    ObjectInitialiser,
    /// There is none: the top level of a client.
    TopLevel,
}

/// The types of a body as its header writes them, where no requirement has been used.
#[derive(Drop)]
pub struct DeclaredTypes {
    /// The type of `self`, where there is one.
    pub self_type: Option<RType>,
    /// Those of the parameters, or of a setter's `newValue`.
    pub parameters: List<RType>,
    /// `NoValue` where there is no result.
    pub result: RType,
}

/// What holds in a whole body. Its types are canonical in its signature, but for those that are declared.
#[derive(Drop)]
pub struct BodyScope {
    pub role: BodyRole,
    pub signature: Signature,
    /// What its declaration stands in.
    pub standing: Standing,
    pub declared: DeclaredTypes,
    /// The type of `self`, where there is one.
    pub self_type: Option<RType>,
    /// The result; `NoValue` where there is none.
    pub result: RType,
    /// The types of the parameters, and then of the locals in the order of the text: those of the numbers from 0.
    pub locals: List<RType>,
}

/// A body whose names are resolved.
#[derive(Drop)]
pub struct RBody {
    /// The key of the declaration with the mark of the accessor, or with `#override` under its own class for a function
    /// that overrides. A client's top level has `main#start`.
    pub owner: Key,
    pub scope: BodyScope,
    /// Nothing where the text has none.
    pub block: Option<RBlock>,
}
