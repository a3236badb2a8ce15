//! Keys of declarations.
//!
//! `evo_names` says which key a declaration has (`specs/Keys`, `specs/Bodies`); here stands the code, each answer exactly
//! the definition's. The lists of declarations and their index stand below, resolved headers above.
#![tactic(auto)]

mod bases;
mod classes;
mod keys;
mod marks;
mod members;
mod roots;
mod texts;

pub use bases::{Bases, ByBase, groups_by_base};
pub use classes::{declaration_of, superclass};
pub use keys::{body_key, key_of, own_key, owner_key};
pub use marks::{conformance_key, getter_key, part_key, setter_key};
pub use members::{Member, is_member_of, sees, shown};
pub use roots::root_of;
pub use texts::{FoundType, class_key, key_of_id, protocol_key, type_named, type_round};
