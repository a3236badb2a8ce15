ghost use Rattle.std.specs.Prelude.{◌≡◌, [], IfOk, OnErr, Some, None, MatchOption, length, slice_get};
ghost use Rattle.evo_base.specs.Names.{position_of, AreDistinct, Inserts};

use indexmap::IndexSet;
use std::alloc::{AllocError, Global};
use std::marker::Model;

/// Distinct names in the order of insertion, each found by its hash. Contracts see the list of the names.
#[derive(Drop)]
pub struct NameTable {
    names: IndexSet<Vec<u8>>,
}

impl Model for NameTable {
    ghost use Rattle.std.specs.Prelude.{List, ℕ, map};
    ghost use Rattle.evo_base.specs.Names.{AreDistinct};

    ghost Value = { List (List ℕ) };

    ghost view = { λ t. map (λ v. v.items) t.names.keys };

    ghost invariant = { λ t. AreDistinct (map (λ v. v.items) t.names.keys) };
}

impl NameTable {
    /// An empty table, which takes no memory before the first name.
    pub fn new(alloc: Global) -> NameTable
        ensures { result ≡ [] }
    {
        NameTable {
            names: IndexSet::new(alloc),
        }
    }

    /// Puts a name that is not there at the end. The answer says whether it was new.
    pub fn insert(&mut self, alloc: Global, name: &[u8]) -> Result<bool, AllocError>
        ensures ok { IfOk result (λ added. Inserts self.old self.new name.now added) }
        ensures err { OnErr result (self.new ≡ self.old) }
        ensures distinct { AreDistinct self.new }
    {
        if self.names.contains(name) {
            return Ok(false);
        }
        self.names.insert(name.to_vec(alloc)?)?;
        Ok(true)
    }

    /// The place of a name, counted from 0.
    pub fn position(&self, name: &[u8]) -> Option<usize>
        ensures place { result ≡ position_of name.now self.now }
        ensures distinct { AreDistinct self.now }
    {
        self.names.get_index_of(name)
    }

    /// How many names there are.
    pub fn len(&self) -> usize
        ensures { result ≡ length self.now }
    {
        self.names.len()
    }

    /// The name at a place, counted from 0.
    pub fn name_at(&self, place: usize) -> Option<&[u8]>
        ensures { MatchOption result (slice_get self.now place ≡ None) (λ n. slice_get self.now place ≡ Some n.now) }
    {
        let name = self.names.get_index(place)?;
        Some(name.as_slice())
    }
}
