//! Names of modules.

ghost use Rattle.std.specs.Prelude.{◌≡◌, ◌↔◌, IsTrue};
ghost use Rattle.evo_lex.specs.ModuleName as spec;
ghost use Rattle.evo_lex.specs.ModuleName.{IsModule};

use crate::identifier::is_identifier;
use evo_base::{is_keyword, is_one_of};

/// The words, beside the keywords, that name no module.
static TAKEN: [&[u8]; 5] = [b"Swift", b"main", b"Int", b"Bool", b"String"];

#[tactic(auto, unfolding(crate::specs::ModuleName::is_taken))]
fn is_taken(word: &[u8]) -> bool
    ensures { result ≡ spec.is_taken word.now }
{
    is_one_of(&TAKEN, word)
}

/// Whether the text may name a module: an identifier that is no keyword and not taken.
pub fn is_module(name: &str) -> bool
    ensures { IsTrue result ↔ IsModule name.now }
{
    if !is_identifier(name) {
        return false;
    }
    if name == "_" {
        return false;
    }
    if is_keyword(name.as_bytes()) {
        return false;
    }
    !is_taken(name.as_bytes())
}
