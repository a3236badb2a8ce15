//! Copies of names.

use crate::copy::Copied;
use evo_tree::{Identifier, TypeName};
use std::alloc::{AllocError, Global};

impl Copied for Identifier {
    fn copy(&self, alloc: Global) -> Result<Identifier, AllocError> {
        Ok(Identifier {
            place: self.place,
            text: self.text.copy(alloc)?,
        })
    }
}

impl Copied for TypeName {
    fn copy(&self, alloc: Global) -> Result<TypeName, AllocError> {
        Ok(TypeName {
            place: self.place,
            names: self.names.copy(alloc)?,
        })
    }
}
