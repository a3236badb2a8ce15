//! What texts are printed to.

ghost use Rattle.std.specs.Prelude.{◌≡◌, ◌+◌, ◌++◌, [], IfOk, OnOk, codes, decimal};
ghost use Rattle.evo_tree.specs.Canonical.{indent};
ghost use Rattle.evo_print.specs.Texts.{between};

use std::alloc::{AllocError, Global};
use std::marker::Model;

/// What is printed so far. Contracts see it as the list of its bytes.
#[derive(Drop)]
pub(crate) struct Printer {
    alloc: Global,
    text: Vec<u8>,
}

impl Model for Printer {
    ghost use Rattle.std.specs.Prelude.{List, ℕ};

    ghost Value = { List ℕ };

    ghost view = { λ p. p.text.items };
}

impl Printer {
    /// Nothing yet. It takes no memory.
    pub(crate) fn new(alloc: Global) -> Printer
        ensures { result ≡ [] }
    {
        Printer {
            alloc,
            text: Vec::new(alloc),
        }
    }

    /// What is printed.
    pub(crate) fn into_text(self) -> Vec<u8>
        ensures { result.items ≡ self }
    {
        let Printer { alloc: _, text } = self;
        text
    }

    pub(crate) fn put(&mut self, piece: &[u8]) -> Result<(), AllocError>
        ensures { OnOk result (self.new ≡ self.old ++ piece.now) }
    {
        self.text.extend_from_slice(piece)?;
        Ok(())
    }

    pub(crate) fn put_number(&mut self, number: u64) -> Result<(), AllocError>
        ensures { OnOk result (self.new ≡ self.old ++ decimal number) }
    {
        let digits = number.to_string(self.alloc)?;
        self.put(digits.as_bytes())
    }

    /// Two blanks for each level.
    pub(crate) fn put_indent(&mut self, depth: u64) -> Result<(), AllocError>
        ensures { OnOk result (self.new ≡ self.old ++ indent depth) }
    {
        for _level in 0..depth {
            self.put(b"  ")?;
        }
        Ok(())
    }

    /// What stands before the item at an index, where a mark stands between each two items.
    pub(crate) fn put_between(&mut self, index: usize, mark: &[u8]) -> Result<(), AllocError>
        ensures { OnOk result (self.new ≡ self.old ++ between index mark.now) }
    {
        if index == 0 {
            return Ok(());
        }
        self.put(mark)
    }

    /// The brace that closes lines, which stands less deep than they do.
    pub(crate) fn close(&mut self, depth: u64) -> Result<(), AllocError>
        ensures { OnOk result (self.new ≡ self.old ++ (indent depth ++ codes "}")) }
    {
        self.put_indent(depth)?;
        self.put(b"}")
    }
}

/// One level deeper. The blanks at a depth past 64 bits have no room in memory.
pub(crate) fn deeper(depth: u64) -> Result<u64, AllocError>
    ensures { IfOk result (λ d. d ≡ depth + 1) }
{
    match depth.checked_add(1) {
        Some(deeper) => Ok(deeper),
        None => Err(AllocError),
    }
}
