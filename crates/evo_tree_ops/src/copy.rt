//! Copies of trees.

ghost use Rattle.std.specs.Prelude.{◌≡◌, IfOk};

use evo_base::{List, Name};
use std::alloc::{AllocError, Global};

/// What can be copied where there is memory.
pub trait Copied: Drop {
    /// An equal value, places included. An error is want of memory.
    fn copy(&self, alloc: Global) -> Result<Self, AllocError>
        ensures { IfOk result (λ copy. copy ≡ self.now) };
}

/// An equal list.
pub(crate) fn copy_list<T: Copied>(alloc: Global, list: &List<T>) -> Result<List<T>, AllocError>
    ensures { IfOk result (λ copy. copy ≡ list.now) }
{
    let mut copies = Vec::new(alloc);
    for item in list.as_slice() {
        copies.push(item.copy(alloc)?)?;
    }
    Ok(List::from_vec(copies))
}

/// An equal option.
pub(crate) fn copy_option<T: Copied>(
    alloc: Global,
    option: &Option<T>,
) -> Result<Option<T>, AllocError>
    ensures { IfOk result (λ copy. copy ≡ option.now) }
{
    match option {
        Some(item) => Ok(Some(item.copy(alloc)?)),
        None => Ok(None),
    }
}
