//! Copies.

ghost use Rattle.std.specs.Prelude.{◌≡◌, IfOk};

use evo_base::{Key, List, Name};
use evo_tree::{Attr, Modifier};
use std::alloc::{AllocError, Global};

/// What can be copied where there is memory.
pub trait Copied: Drop {
    /// An equal value, places included. An error is want of memory.
    fn copy(&self, alloc: Global) -> Result<Self, AllocError>
        ensures { IfOk result (λ copy. copy ≡ self.now) };
}

/// An equal list.
pub fn copy_list<T: Copied>(alloc: Global, list: &List<T>) -> Result<List<T>, AllocError>
    ensures { IfOk result (λ copy. copy ≡ list.now) }
{
    let mut copies = Vec::new(alloc);
    for item in list.as_slice() {
        copies.push(item.copy(alloc)?)?;
    }
    Ok(List::from_vec(copies))
}

/// An equal option.
pub fn copy_option<T: Copied>(alloc: Global, option: &Option<T>) -> Result<Option<T>, AllocError>
    ensures { IfOk result (λ copy. copy ≡ option.now) }
{
    match option {
        Some(item) => Ok(Some(item.copy(alloc)?)),
        None => Ok(None),
    }
}

impl Copied for Name {
    fn copy(&self, alloc: Global) -> Result<Name, AllocError> {
        Name::copy(self, alloc)
    }
}

impl Copied for Key {
    fn copy(&self, alloc: Global) -> Result<Key, AllocError> {
        Key::copy(self, alloc)
    }
}

impl Copied for Attr {
    fn copy(&self, _alloc: Global) -> Result<Attr, AllocError> {
        Ok(*self)
    }
}

impl Copied for Modifier {
    fn copy(&self, _alloc: Global) -> Result<Modifier, AllocError> {
        Ok(*self)
    }
}
