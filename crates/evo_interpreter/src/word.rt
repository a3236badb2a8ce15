//! Words of a frame or an object.

ghost use Rattle.std.specs.Prelude.{◌≡◌, IfOk};
ghost use Rattle.evo_interpreter.specs.Words.{word_of};

use crate::text::Text;
use sqlite_items::Items;
use std::alloc::{AllocError, Global};

/// A word. A box owns the words that it holds, a table the symbol of its conformance.
#[derive(Drop)]
pub enum Word {
    Empty,
    Int(i64),
    Bool(bool),
    Text(Text),
    Reference(u64),
    Boxed(Items<Word>),
    Table(Text),
}

/// An equal word.
#[cycle(copies)]
pub fn copy_word(alloc: Global, word: &Word) -> Result<Word, AllocError>
    ensures { IfOk result (λ copy. copy ≡ word.now) }
{
    Ok(match word {
        Word::Empty => Word::Empty,
        Word::Int(value) => Word::Int(*value),
        Word::Bool(value) => Word::Bool(*value),
        Word::Text(text) => Word::Text(text.copy()?),
        Word::Reference(object) => Word::Reference(*object),
        Word::Boxed(words) => Word::Boxed(copy_box(alloc, words)?),
        Word::Table(conformance) => Word::Table(conformance.copy()?),
    })
}

#[cycle(copies)]
fn copy_box(alloc: Global, words: &Items<Word>) -> Result<Items<Word>, AllocError>
    ensures { IfOk result (λ copies. copies ≡ words.now) }
{
    let mut copies = Vec::new(alloc);
    for word in words.as_slice() {
        copies.push(copy_word(alloc, word)?)?;
    }
    Ok(Items::from_vec(copies))
}

/// Equal words in the same order.
pub fn copy_words(alloc: Global, words: &[Word]) -> Result<Vec<Word>, AllocError>
    ensures { IfOk result (λ copies. copies.items ≡ words.now) }
{
    let mut copies = Vec::with_capacity(alloc, words.len())?;
    for word in words {
        copies.push(copy_word(alloc, word)?)?;
    }
    Ok(copies)
}
