//! The declarations that a module sees as one list, and what is looked up in it: types and protocols by their keys, what
//! stands above them, conformances, and members that stand for types.
//!
//! `evo_names` says what each look-up finds (`specs/Heads`, `specs/Written`); here stands the code, each answer exactly
//! the definition's. What written types mean stands above.
#![tactic(auto)]

mod associated;
mod conforming;
mod declared;
mod inheriting;
mod located;
mod lookup;
mod member;
mod space;

pub use associated::{associated_of, associated_type, default_of};
pub use conforming::{conformances, is_among};
pub use declared::Declared;
pub use inheriting::closure;
pub use located::{Around, Located, SelfType};
pub use lookup::{declaration_of, declares, extends, superclass};
pub use member::{Sought, Test, alias_of, nearest_alias};
pub use space::Space;
