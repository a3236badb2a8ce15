//! Words that name something.

ghost use Rattle.std.specs.Prelude.{◌≡◌, ◌&&◌, ◌↔◌, IsTrue};
ghost use Rattle.std.specs.Str.{is_utf8};
ghost use Rattle.evo_lex.specs.Identifier.{is_identifier as identifier};
ghost use Rattle.evo_first_form.specs.Words as spec;
ghost use Rattle.evo_first_form.specs.Words.{IsName};

use evo_base::is_keyword;
use evo_lex::is_identifier;

fn is_identifier_text(word: &[u8]) -> bool
    ensures { result ≡ is_utf8 word.now && identifier word.now }
{
    match str::from_utf8(word) {
        Ok(text) => is_identifier(text),
        Err(_) => false,
    }
}

#[tactic(auto, unfolding(crate::specs::Words::is_name))]
fn names_something(word: &[u8]) -> bool
    ensures { result ≡ spec.is_name word.now }
{
    is_identifier_text(word) && !is_keyword(word) && word != b"_".as_slice()
}

/// Whether the word is an identifier that names something: no keyword and not `_`.
pub fn is_name(word: &[u8]) -> bool
    ensures value { result ≡ spec.is_name word.now }
    ensures says { IsTrue result ↔ IsName word.now }
{
    names_something(word)
}
