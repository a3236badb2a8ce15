//! Reads expressions and written types, over the tokens of a text as the grammar sees them.
//!
//! `lexemes` are these tokens (`Pieces` of `evo_tree`), and a `Cursor` is a place among them. `expr`, `call` and
//! `type_name` answer what the readers of `specs/Read` do, which `proofs/ReadsRule` ties to the grammar; `parse_expr`
//! says in the grammar's own terms what is read or refused (`specs/Contract`, `specs/Fault`). Below stand `evo_tree`
//! with the grammar and `evo_combinators` with the laws of its parts, above the readers of statements and declarations.
#![tactic(auto)]

mod cursor;
mod expression;
mod laws;
mod lexeme;
mod parse;
mod refusal;
mod sides;
mod terminal;
mod types;

pub use cursor::Cursor;
pub use expression::{call, expr};
pub use laws::{one_answer, one_expression};
pub use lexeme::{Level, Lexeme, lexemes};
pub use parse::{ParseFault, fault_of, parse_expr};
pub use refusal::{discard, is_refusal, too_deep};
pub use types::type_name;
