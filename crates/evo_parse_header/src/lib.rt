//! Reads attributes, modifiers, headers and cases, over the tokens of a text as the grammar sees them.
//!
//! `attributes`, `modifiers`, `header`, `inherited`, `conforming` and `rest_of_cases` answer what the readers of
//! `specs/Read` do, which `proofs/Productions` and `proofs/Payloads` tie to the grammar (`Declarations` of `evo_tree`) at
//! each nesting. Attributes and modifiers are also put in their order here. Below stand the readers of types
//! (`evo_parse_expr`), above those of declarations (`evo_parse_decl`).
#![tactic(auto)]

mod attribute;
mod cases;
mod headers;
mod parts;
mod words;

pub use attribute::{
    attributes, is_modifier, modifiers, ordered_attributes, ordered_modifiers, with_access,
};
pub use cases::rest_of_cases;
pub use headers::{conforming, header, inherited, is_protocol};
pub use words::{has_attribute, has_modifier, is_nominal, mark_if, nominal_word};
