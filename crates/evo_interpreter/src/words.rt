//! The words of a frame or an object.

ghost use Rattle.std.specs.Prelude.{◌≡◌, ◌+◌, ◌≤◌, ◌∷◌, ◌++◌, [], length, map, replicate, nat_le, slice_get, IfOk, OnOk, OnErr, IsTrue, IsFalse, MatchOption, None, Some, true};
ghost use Rattle.evo_execution.specs.Words.{Empty};
ghost use Rattle.evo_execution.specs.Words.{and_then, Got, Faults};
ghost use Rattle.evo_execution.specs.Execution.{written, written_at, words_at};
ghost use Rattle.evo_execution.specs.declared.end.MachineFault.TheVariants as fault;
ghost use Rattle.evo_interpreter.specs.Words.{word_of, put_at};

use crate::word::{Word, copy_word};
use std::alloc::{AllocError, Global};
use std::marker::Model;

/// Words, by place from 0. Contracts see them as words of the definition.
#[derive(Drop)]
pub struct Words {
    words: Vec<Word>,
}

impl Model for Words {
    ghost use Rattle.std.specs.Prelude.{List, map};
    ghost use Rattle.evo_execution.specs.Words as defined;
    ghost use Rattle.std.specs.Coded.{coded_list};
    ghost use Rattle.evo_interpreter.specs.Words.{word_of, word_code};

    ghost Value = { List defined.Word };

    ghost coded = { coded_list word_code };

    ghost view = { λ w. map word_of w.words.items };
}

impl Words {
    /// No words.
    pub fn new(alloc: Global) -> Words
        ensures { result ≡ [] }
    {
        Words {
            words: Vec::new(alloc),
        }
    }

    /// How many there are.
    pub fn len(&self) -> u64
        ensures { result ≡ length self.now }
    {
        self.words.len() as u64
    }

    /// Whether so many words lie inside from a place on.
    pub fn has(&self, at: u64, count: u64) -> bool
        ensures { result ≡ nat_le (at + count) (length self.now) }
    {
        let len = self.len();
        at <= len && count <= len - at
    }

    /// Puts so many empty words at the end.
    pub fn fill(&mut self, count: u64) -> Result<(), AllocError>
        ensures { OnOk result (self.new ≡ self.old ++ replicate count Empty) }
    {
        self.words.reserve(count as usize)?;
        for made in 0..count {
            self.words.push(Word::Empty)?;
        }
        Ok(())
    }

    /// Takes all words away.
    pub fn clear(&mut self)
        ensures { self.new ≡ [] }
    {
        self.words.clear();
    }

    /// Puts copies of words at the end.
    pub fn append(&mut self, alloc: Global, more: &[Word]) -> Result<(), AllocError>
        ensures { OnOk result (self.new ≡ self.old ++ map word_of more.now) }
    {
        self.words.reserve(more.len())?;
        for word in more {
            self.words.push(copy_word(alloc, word)?)?;
        }
        Ok(())
    }

    /// Puts other words at the end.
    pub fn extend(&mut self, more: Words) -> Result<(), AllocError>
        ensures { OnOk result (self.new ≡ self.old ++ more) }
    {
        let Words { words: mut more } = more;
        self.words.append(&mut more)?;
        Ok(())
    }

    /// Puts a word at the end.
    pub fn push(&mut self, word: Word) -> Result<(), AllocError>
        ensures { OnOk result (self.new ≡ self.old ++ word_of word ∷ []) }
    {
        self.words.push(word)?;
        Ok(())
    }

    /// The word at a place.
    #[inline(always)]
    pub fn get(&self, at: u64) -> Option<&Word>
        ensures { MatchOption result (slice_get self.now at ≡ None) (λ w. slice_get self.now at ≡ Some (word_of w.now)) }
    {
        self.words.get(at as usize)
    }

    /// So many words from a place on, where all lie inside.
    pub fn slice(&self, at: u64, count: u64) -> Option<&[Word]>
        ensures { MatchOption result (words_at self.now at count ≡ Faults fault.Range) (λ ws. words_at self.now at count ≡ Got (map word_of ws.now)) }
    {
        if !self.has(at, count) {
            return None;
        }
        Some(&self.words[at as usize..(at + count) as usize])
    }

    /// Sets the words from a place on, where all lie inside. The answer says whether they do.
    pub fn write(&mut self, at: u64, new: Words) -> bool
        ensures fits { result ≡ nat_le (at + length new) (length self.old) }
        ensures written { IsTrue result → self.new ≡ written self.old at new }
    {
        let Words { words: new } = new;
        write_words(&mut self.words, at, new)
    }

    /// Gives so many words from a place on to others, and takes theirs.
    pub fn give(&mut self, from: u64, count: u64, others: &mut Words, to: u64)
        requires inside { nat_le (from + count) (length self.old) ≡ true }
        requires fits { nat_le (to + count) (length others.old) ≡ true }
        ensures { and_then (words_at self.old from count) (written_at others.old to) ≡ Got others.new }
    {
        let given = &mut self.words[from as usize..(from + count) as usize];
        swap_words(&mut others.words, to, given);
    }

    /// Sets the word at a place, where it lies inside. The answer says whether it does.
    #[inline(always)]
    pub fn set(&mut self, at: u64, word: Word) -> bool
        ensures fits { result ≡ nat_le (at + 1) (length self.old) }
        ensures written { IsTrue result → self.new ≡ written self.old at (word_of word ∷ []) }
        ensures kept { IsFalse result → self.new ≡ self.old }
    {
        set_word(&mut self.words, at, word)
    }
}

// Puts elements in the place of those from a place on, and takes these.
fn swap_words(words: &mut Vec<Word>, at: u64, new: &mut [Word])
    requires { at + length new.old ≤ length words.old.items }
    ensures { words.new.items ≡ put_at words.old.items at new.old }
{
    let end = at + new.len() as u64;
    words[at as usize..end as usize].swap_with_slice(new);
}

// Sets elements from a place on, where all lie inside.
fn write_words(words: &mut Vec<Word>, at: u64, mut new: Vec<Word>) -> bool
    ensures fits { result ≡ nat_le (at + length new.items) (length words.old.items) }
    ensures written { IsTrue result → words.new.items ≡ put_at words.old.items at new.items }
{
    let len = words.len() as u64;
    let count = new.len() as u64;
    if at > len || count > len - at {
        return false;
    }
    swap_words(words, at, &mut new);
    true
}

// Sets the element at a place, where it lies inside.
#[inline(always)]
fn set_word(words: &mut Vec<Word>, at: u64, word: Word) -> bool
    ensures fits { result ≡ nat_le (at + 1) (length words.old.items) }
    ensures written { IsTrue result → words.new.items ≡ put_at words.old.items at (word ∷ []) }
    ensures kept { IsFalse result → words.new.items ≡ words.old.items }
{
    if at >= words.len() as u64 {
        return false;
    }
    words[at as usize] = word;
    true
}
