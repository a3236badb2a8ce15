//! Names that are the same but for places.

ghost use Rattle.evo_tree.specs.Bare.{bare_identifier, bare_type};

use crate::compared::{Compared, same_list};
use evo_tree::{Identifier, TypeName};

impl Compared for Identifier {
    ghost bare = { bare_identifier };

    fn same(&self, other: &Identifier) -> bool {
        self.text.same(&other.text)
    }
}

impl Compared for TypeName {
    ghost bare = { bare_type };

    fn same(&self, other: &TypeName) -> bool {
        same_list(&self.names, &other.names)
    }
}
