//! Where types are written.

ghost use Rattle.std.specs.Prelude.{◌≤◌, length};

use evo_declarations::Home;
use evo_members::Around;
use evo_tree::GenericParameter;

/// Where a type is written, in a header with at most 4 generic parameters.
#[derive(Clone, Copy)]
pub struct Scope<'a> {
    /// The module whose names it uses.
    pub home: Home,
    pub around: Around<'a>,
    pub generics: &'a [GenericParameter],
    ghost few: { length generics.now ≤ 4 },
}
