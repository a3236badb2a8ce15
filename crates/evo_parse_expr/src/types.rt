//! Reads written types.

ghost use Rattle.std.specs.Prelude.{◌≡◌, ◌∷◌, ℕ, List};
ghost use Rattle.evo_combinators.specs.Reader.{Reads, many, one};
ghost use Rattle.evo_tree.specs.Pieces.{mark};
ghost use Rattle.evo_tree.specs.Types.{plain_name};
ghost use Rattle.evo_tree.specs.declared.terminal.Terminal.TheVariants.{Dot};
ghost use Rattle.evo_parse_expr.specs.Read as spec;

use crate::cursor::Cursor;
use evo_base::{List, Name};
use evo_combinators::ReadError;
use evo_tree::{Terminal, TypeName};
use std::alloc::Global;

// A first name, and those behind dots.
fn further_names(
    alloc: Global,
    first: Name,
    tokens: &mut Cursor<'_>,
) -> Result<List<Name>, ReadError>
    ensures { Reads (spec.after first (many (mark Dot) (λ _. one plain_name)) tokens.old) result tokens.new }
{
    let mut found = Vec::new(alloc);
    found.push(first)?;
    for _turn in 0..tokens.left() {
        let Some(_) = tokens.mark(Terminal::Dot) else {
            return Ok(List::from_vec(found));
        };
        found.push(tokens.expect_plain_name(alloc)?)?;
    }
    Ok(List::from_vec(found))
}

/// A written type at the front of the tokens.
#[tactic(auto, unfolding(crate::specs::Read::type_of))]
pub fn type_name(alloc: Global, tokens: &mut Cursor<'_>) -> Result<TypeName, ReadError>
    ensures { Reads (spec.type_of tokens.old) result tokens.new }
{
    let (place, first) = tokens.expect_type_head(alloc)?;
    let names = further_names(alloc, first, tokens)?;
    Ok(TypeName { place, names })
}
