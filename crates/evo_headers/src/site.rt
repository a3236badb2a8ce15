//! Where types are written.

use evo_members::Space;
use evo_type_names::{Known, Scope};

/// Where types are written, what the module sees, and what is known of the types that are written elsewhere.
#[derive(Clone, Copy)]
pub(crate) struct Site<'a> {
    pub space: &'a Space<'a>,
    pub known: &'a [Known<'a>],
    pub scope: Scope<'a>,
}
