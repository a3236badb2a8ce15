//! Look-ups by key in a list.

ghost use Rattle.std.specs.Prelude.{◌≡◌, ◌<◌, ◌↔◌, IfOk, IsTrue, MatchOption, OnOk, Some, length, slice_get};
ghost use Rattle.evo_base.specs.declared.key.Key.{Key};
ghost use Rattle.evo_resolved.specs.Found.{IsFound, Sought};
ghost use Rattle.evo_resolved.specs.Indexed.{Added, Indexed, bucket, newest_of};

use crate::same::same_key;
use evo_base::{Key, NameTable};
use std::alloc::{AllocError, Global};

/// What a key finds in a list.
pub trait Keyed {
    ghost use Rattle.std.specs.Prelude.{Bool};
    ghost use Rattle.evo_base.specs.declared.key.Key.{Key};

    /// The key under which it stands.
    ghost own: { Self → Key };

    /// Whether it is what its key names.
    ghost is_named: { Self → Bool };

    fn key(&self) -> &Key
        ensures { result.now ≡ own self.now };

    fn has_name(&self) -> bool
        ensures { result ≡ is_named self.now };
}

/// For each text by which keys are sought the last item that has it, and for each item the one before it that has its text.
#[derive(Drop)]
pub struct KeyIndex {
    pub(crate) names: NameTable,
    pub(crate) newest: Vec<usize>,
    pub(crate) previous: Vec<Option<usize>>,
}

// Puts one more item behind those that are indexed.
fn add(alloc: Global, ix: &mut KeyIndex, text: &[u8], number: usize) -> Result<(), AllocError>
    requires { length ix.old.newest.items ≡ length ix.old.names }
    ensures { OnOk result (Added ix.old ix.new text.now number) }
{
    match ix.names.position(text) {
        Some(at) => {
            let before = ix.newest[at];
            ix.newest[at] = number;
            ix.previous.push(Some(before))?;
            Ok(())
        }
        None => {
            ix.names.insert(alloc, text)?;
            ix.newest.push(number)?;
            ix.previous.push(None)?;
            Ok(())
        }
    }
}

// The last item with this text.
fn last_of(ix: &KeyIndex, text: &[u8]) -> Option<usize>
    requires { length ix.now.newest.items ≡ length ix.now.names }
    ensures { result ≡ newest_of ix.now text.now }
{
    let at = ix.names.position(text)?;
    Some(ix.newest[at])
}

// The item before this one that has its text.
fn before(ix: &KeyIndex, number: usize) -> Option<usize>
    requires { number < length ix.now.previous.items }
    ensures { slice_get ix.now.previous.items number ≡ Some result }
{
    ix.previous[number]
}

// The text by which a key is sought: of functions and properties their base, of initialisers the name of their type.
fn bucket_of(key: &Key) -> &[u8]
    ensures { result.now ≡ bucket key.now }
{
    let base = key.base.as_slice();
    if base != b"init".as_slice() {
        return base;
    }
    match key.context.as_slice().get(1) {
        Some(name) => name.as_slice(),
        None => base,
    }
}

// The text by which an item is found.
fn text_of<T: Keyed>(item: &T) -> &[u8]
    ensures { result.now ≡ bucket (T.own item.now) }
{
    bucket_of(item.key())
}

/// The index of these items.
pub fn index_of<T: Keyed>(alloc: Global, items: &[T]) -> Result<KeyIndex, AllocError>
    ensures { IfOk result (λ ix. Indexed T.own items.now (length items.now) ix) }
{
    let mut ix = KeyIndex {
        names: NameTable::new(alloc),
        newest: Vec::new(alloc),
        previous: Vec::new(alloc),
    };
    for i in 0..items.len() {
        let item = &items[i];
        add(alloc, &mut ix, text_of(item), i)?;
    }
    Ok(ix)
}

// Whether it is what the key names.
fn is_sought<T: Keyed>(item: &T, key: &Key) -> bool
    ensures { IsTrue result ↔ Sought T.own T.is_named key.now item.now }
{
    item.has_name() && same_key(item.key(), key)
}

/// What a key names in a list; nothing exactly where it names nothing.
pub fn find_in<'a, T: Keyed>(items: &'a [T], ix: &KeyIndex, key: &Key) -> Option<&'a T>
    requires { Indexed T.own items.now (length items.now) ix.now }
    ensures { MatchOption result ((x : T) → IsFound T.own T.is_named items.now key.now x → ⊥) (λ x. IsFound T.own T.is_named items.now key.now x.now) }
{
    let mut at = last_of(ix, bucket_of(key));
    'walk: while let Some(i) = at {
        let item = &items[i];
        if is_sought(item, key) {
            return Some(item);
        }
        at = before(ix, i);
    }
    None
}
