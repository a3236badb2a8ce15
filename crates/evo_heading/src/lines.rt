//! What a heading says.

use evo_base::{Name, Release};

/// What the two lines with which an interface begins say.
#[derive(Drop)]
pub struct Heading {
    /// The library's module.
    pub name: Name,
    /// The library's release.
    pub release: Release,
}
