//! Words of ASCII among characters.

ghost use Rattle.std.specs.Prelude.{◌≡◌};
ghost use Rattle.std.specs.List.{list_any};
ghost use Rattle.std.specs.Str.{bytes_eq};
ghost use Rattle.evo_lex.specs.Front as spec;
ghost use Rattle.evo_base.specs.Keywords as keywords;

use evo_base::{KEYWORDS, TokenKind};

fn is_word(ascii: &[u8], word: &[char]) -> bool
    ensures { result ≡ bytes_eq ascii.now word.now }
{
    if ascii.len() != word.len() {
        return false;
    }
    for (i, c) in word.iter().enumerate() {
        if u32::from(ascii[i]) != u32::from(*c) {
            return false;
        }
    }
    true
}

/// Whether the word is among these words.
pub fn is_one_of(words: &[&[u8]], word: &[char]) -> bool
    ensures { result ≡ list_any (λ k. bytes_eq k.now word.now) words.now }
{
    for one in words {
        if is_word(one, word) {
            return true;
        }
    }
    false
}

#[tactic(auto, unfolding(evo_base::specs::Keywords::is_keyword))]
fn is_keyword(word: &[char]) -> bool
    ensures { result ≡ keywords.is_keyword word.now }
{
    is_one_of(&KEYWORDS, word)
}

/// What an identifier is.
#[tactic(auto, unfolding(crate::specs::Front::kind_of))]
pub fn kind_of(word: &[char]) -> TokenKind
    ensures { result ≡ spec.kind_of word.now }
{
    if is_word(b"_", word) {
        TokenKind::Underscore
    } else if is_keyword(word) {
        TokenKind::Keyword
    } else {
        TokenKind::Identifier
    }
}
