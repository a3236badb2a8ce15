//! Terms, from expressions.

ghost use Rattle.std.specs.Prelude.{◌≡◌, IfOk};
ghost use Rattle.evo_first_form.specs.FirstForm as spec;

use crate::Term;
use crate::words::is_name;
use evo_tree::{Argument, Expr, Identifier};
use sqlite_items::Items;
use std::alloc::{AllocError, Global};

fn integer(value: u64) -> Option<Term>
    ensures { result ≡ spec.integer_of value }
{
    if value < 0x8000_0000_0000_0000 {
        Some(Term::Integer(value))
    } else {
        None
    }
}

fn call(
    alloc: Global,
    name: &Identifier,
    arguments: &Option<Items<Argument>>,
) -> Result<Option<Term>, AllocError>
    ensures { IfOk result (λ found. found ≡ spec.call_of name.now arguments.now) }
{
    match arguments {
        Some(arguments) if arguments.is_empty() && is_name(name.text.as_slice()) => {
            Ok(Some(Term::Call(name.text.copy(alloc)?)))
        }
        _ => Ok(None),
    }
}

/// The term that an expression is.
pub(crate) fn term_of(alloc: Global, expr: &Expr) -> Result<Option<Term>, AllocError>
    ensures { IfOk result (λ found. found ≡ spec.term_of expr.now) }
{
    match expr {
        Expr::Integer(_, value) => Ok(integer(*value)),
        Expr::Name(name, arguments) => call(alloc, name, arguments),
        _ => Ok(None),
    }
}
