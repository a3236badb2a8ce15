//! Resolved statements.
//!
//! | part | who reads it |
//! |---|---|
//! | the form, numbers of locals, roots, steps, operators | typing, the pass on paths, the meaning of programs, lowering |
//! | `Local`'s and `RPattern::Case`'s written type | availability, hidden names in inlinable bodies, interfaces |
//! | `RBlock.end`, places of `Switch`, `Break`, `Continue`, `Return` | the pass on paths; evaluation reads no place |
//! | `RClause.place` | misplaced `@unknown default` |

use crate::expression::{Applied, Literal, RExpr, RUse, Variable};
use crate::resolved_type::RTypeName;
use evo_base::{Key, List, Place};
use evo_tree::AssignmentOperator;
use sqlite_items::Items;

/// Where a place begins.
#[derive(Drop)]
pub enum RRoot {
    Variable(Variable),
    /// A value whose type is a class. It is evaluated, and not set.
    Object(RExpr),
}

/// A place that is set: where it begins, and the properties that lead to it.
#[derive(Drop)]
pub struct RPlace {
    pub place: Place,
    pub root: RRoot,
    pub steps: List<RUse>,
}

/// A pattern of a clause.
#[derive(Drop)]
pub enum RPattern {
    Literal(Place, Literal),
    /// A case, with its type where that is written, and for each value of the payload the local that it gets, if any.
    /// The list is empty where the pattern says nothing of the payload.
    Case(Place, Option<RTypeName>, Key, List<Option<u32>>),
}

/// What a clause of a `switch` takes.
#[derive(Drop)]
pub enum RClauseLabel {
    /// One pattern at least.
    Case(List<RPattern>),
    Default,
    UnknownDefault,
}

/// A condition and what is done where it is the first that is true. The last branch of an `if` may have none.
pub type RBranch = (Option<RExpr>, RBlock);

/// Statements in braces, with the place of the closing one.
#[cycle(resolved_statements)]
#[derive(Drop)]
pub struct RBlock {
    pub statements: Items<RStmt>,
    pub end: Place,
}

/// A clause of a `switch`.
#[cycle(resolved_statements)]
#[derive(Drop)]
pub struct RClause {
    pub place: Place,
    pub label: RClauseLabel,
    pub statements: Items<RStmt>,
}

/// A statement. There is one for each statement of the text.
#[cycle(resolved_statements)]
#[derive(Drop)]
pub enum RStmt {
    /// A new local, by its number, with its written type and its value.
    Local(Place, u32, Option<RTypeName>, RExpr),
    /// The value of an expression is not used.
    Expr(RExpr),
    Assign(Place, RPlace, AssignmentOperator, RExpr),
    /// An initialiser gives a stored property of its own type a value, by `=`.
    Fill(Place, Key, RExpr),
    /// `self.init(..)`
    SelfInit(Applied),
    /// `super.init(..)`
    SuperInit(Applied),
    If(Place, Items<RBranch>),
    /// No condition stands for a written `true`.
    While(Place, Option<RExpr>, RBlock),
    /// A body that is one expression, and gives its value, is one `return` too.
    Return(Place, Option<RExpr>),
    Break(Place),
    Continue(Place),
    Switch(Place, RExpr, Items<RClause>),
}
