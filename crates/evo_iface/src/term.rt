ghost use Rattle.std.specs.Prelude.{◌≡◌, IfOk, MatchOption};
ghost use Rattle.std.specs.Str.{IsUtf8};
ghost use Rattle.evo_iface.specs.Fronts.{IsTerm};

use crate::texts::BEHIND_CALL;
use evo_base::Name;
use evo_first_form::Term;
use evo_lex::number_of;
use std::alloc::{AllocError, Global};

/// The name of these bytes, where they are UTF-8.
pub fn name_of(alloc: Global, bytes: &[u8]) -> Result<Option<Name>, AllocError>
    ensures { IfOk result (λ r. MatchOption r (IsUtf8 bytes.now → ⊥) (λ name. name ≡ bytes.now)) }
{
    let Ok(_) = str::from_utf8(bytes) else {
        return Ok(None);
    };
    Ok(Some(Name::from_vec(bytes.to_vec(alloc)?)))
}

/// The term of which this is the text.
pub fn term_of(alloc: Global, text: &[u8]) -> Result<Option<Term>, AllocError>
    ensures { IfOk result (IsTerm text.now) }
{
    if let Some(name) = text.strip_suffix(BEHIND_CALL) {
        let Some(name) = name_of(alloc, name)? else {
            return Ok(None);
        };
        return Ok(Some(Term::Call(name)));
    }
    let Some(number) = number_of(alloc, text)? else {
        return Ok(None);
    };
    Ok(Some(Term::Integer(number)))
}
