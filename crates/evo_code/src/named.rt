//! What objects and images call by a symbol.

ghost use Rattle.std.specs.Prelude.{◌≡◌, map, MatchOption, Some, None};
ghost use Rattle.evo_code.specs.Named.{named, item_named, number_from};

use crate::image::{ClassTable, ConfTable, Entry, SizeWords};
use crate::object::{ClassRecord, ConfRecord, Function, ProtocolRecord, Requirement, SizeRecord};
use evo_base::List;

/// What has a symbol.
pub trait Named {
    ghost use Rattle.std.specs.Prelude.{List, ℕ};

    ghost symbol: { Self → List ℕ };

    /// The bytes of the symbol.
    fn symbol(&self) -> &[u8]
        ensures { result.now ≡ symbol self.now };
}

/// Whether one of these has this symbol.
pub fn is_named<T: Named>(items: &List<T>, symbol: &[u8]) -> bool
    ensures { result ≡ named (map T.symbol items.now) symbol.now }
{
    for item in items.as_slice() {
        if item.symbol() == symbol {
            return true;
        }
    }
    false
}

/// The first of these with this symbol.
pub fn item_named<'a, T: Named>(items: &'a List<T>, symbol: &[u8]) -> Option<&'a T>
    ensures { MatchOption result (item_named T.symbol items.now symbol.now ≡ None) (λ item. item_named T.symbol items.now symbol.now ≡ Some item.now) }
{
    for item in items.as_slice() {
        if item.symbol() == symbol {
            return Some(item);
        }
    }
    None
}

/// The number of the first of these with this symbol, counted from 0.
pub fn number_named<T: Named>(items: &[T], symbol: &[u8]) -> Option<u64>
    ensures { result ≡ number_from 0 (map T.symbol items.now) symbol.now }
{
    for (number, item) in items.iter().enumerate() {
        if item.symbol() == symbol {
            return Some(number as u64);
        }
    }
    None
}

impl Named for Function {
    ghost symbol = { λ f. f.symbol };

    fn symbol(&self) -> &[u8] {
        self.symbol.as_slice()
    }
}

impl Named for SizeRecord {
    ghost symbol = { λ r. r.symbol };

    fn symbol(&self) -> &[u8] {
        self.symbol.as_slice()
    }
}

impl Named for ClassRecord {
    ghost symbol = { λ r. r.symbol };

    fn symbol(&self) -> &[u8] {
        self.symbol.as_slice()
    }
}

impl Named for ProtocolRecord {
    ghost symbol = { λ r. r.symbol };

    fn symbol(&self) -> &[u8] {
        self.symbol.as_slice()
    }
}

impl Named for ConfRecord {
    ghost symbol = { λ r. r.symbol };

    fn symbol(&self) -> &[u8] {
        self.symbol.as_slice()
    }
}

impl Named for Requirement {
    ghost symbol = { λ r. r.symbol };

    fn symbol(&self) -> &[u8] {
        self.symbol.as_slice()
    }
}

impl Named for ClassTable {
    ghost symbol = { λ item. item.symbol };

    fn symbol(&self) -> &[u8] {
        self.symbol.as_slice()
    }
}

impl Named for ConfTable {
    ghost symbol = { λ item. item.symbol };

    fn symbol(&self) -> &[u8] {
        self.symbol.as_slice()
    }
}

impl Named for Entry {
    ghost symbol = { λ item. item.name };

    fn symbol(&self) -> &[u8] {
        self.name.as_slice()
    }
}

impl Named for SizeWords {
    ghost symbol = { λ item. item.symbol };

    fn symbol(&self) -> &[u8] {
        self.symbol.as_slice()
    }
}
