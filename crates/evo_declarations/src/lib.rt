//! The declarations of a module as one list, over its tree, and what a name finds among types and protocols.
//!
//! `evo_names` says what the list is (`specs/Listed`) and what names find (`specs/Heads`); here stands the code, each
//! answer exactly the definition's. Trees and resolved types stand below; tables of declarations above.
#![tactic(auto)]

mod groups;
mod heads;
mod laws;
mod level;
mod limits;
mod listed;
mod names;
mod seen;
mod type_id;
mod words;
mod world;

pub use groups::{Groups, groups_of};
pub use heads::{
    Head, class_named, head_in, head_of, named, owner_of, protocol_named, qualified, top_shown,
};
pub use laws::past_limit;
pub use level::{Level, is_less, is_public, lesser, written_level};
pub use listed::{Listed, Listing, Within};
pub use names::Names;
pub use seen::{Shown, Viewpoint, is_seen, same_type};
pub use type_id::TypeId;
pub use words::{has_attribute, has_modifier};
pub use world::{Home, World, alone};
