//! Identifiers.

ghost use Rattle.std.specs.Prelude.{◌≡◌};
ghost use Rattle.std.specs.List.{list_all};
ghost use Rattle.std.specs.Str.{chars};
ghost use Rattle.unicode_ident.specs.Ident.{is_xid_continue};
ghost use Rattle.evo_lex.specs.Identifier as spec;

use crate::class::begins_identifier;
use unicode_ident::is_xid_continue;

fn begins_well(text: &str) -> bool
    ensures { result ≡ spec.begins_well (chars text.now) }
{
    match text.chars().next() {
        Some(c) => begins_identifier(c),
        None => false,
    }
}

fn goes_on(text: &str) -> bool
    ensures { result ≡ list_all is_xid_continue (chars text.now) }
{
    text.chars().all(|c| is_xid_continue(c))
}

/// Whether the word is an identifier, which keywords and `_` are too.
#[tactic(auto, unfolding(crate::specs::Identifier::is_identifier))]
pub fn is_identifier(word: &str) -> bool
    ensures { result ≡ spec.is_identifier word.now }
{
    begins_well(word) && goes_on(word)
}
