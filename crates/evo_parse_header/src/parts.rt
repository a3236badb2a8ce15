//! Parts of headers, and several of them with marks between them.

ghost use Rattle.std.specs.Prelude.{◌≡◌, ◌∷◌, ℕ, List};
ghost use Rattle.evo_combinators.specs.Reader.{Reads, many, one};
ghost use Rattle.evo_tree.specs.Types.{plain_name};
ghost use Rattle.evo_tree.specs.Pieces.{mark};
ghost use Rattle.evo_parse_expr.specs.Read.{Reader, after, type_of};
ghost use Rattle.evo_parse_header.specs.Read as spec;

use evo_base::{List, Name};
use evo_combinators::ReadError;
use evo_parse_expr::{Cursor, type_name};
use evo_tree::{Terminal, TypeName};
use std::alloc::Global;

/// What is read at the front of some tokens, where so much nesting may open.
pub(crate) trait Part: Drop {
    ghost reader: { ℕ → Reader Self };

    fn part(alloc: Global, tokens: &mut Cursor<'_>, depth: u32) -> Result<Self, ReadError>
        ensures { Reads (reader depth tokens.old) result tokens.new };
}

impl Part for TypeName {
    ghost reader = { λ d. type_of };

    fn part(alloc: Global, tokens: &mut Cursor<'_>, _depth: u32) -> Result<TypeName, ReadError> {
        type_name(alloc, tokens)
    }
}

impl Part for Name {
    ghost reader = { λ d. one plain_name };

    fn part(alloc: Global, tokens: &mut Cursor<'_>, _depth: u32) -> Result<Name, ReadError> {
        tokens.expect_plain_name(alloc)
    }
}

/// A part, and those behind a mark.
pub(crate) fn further<T: Part>(
    alloc: Global,
    first: T,
    tokens: &mut Cursor<'_>,
    depth: u32,
    terminal: Terminal,
) -> Result<List<T>, ReadError>
    ensures { Reads (after first (many (mark terminal) (λ _. T.reader depth)) tokens.old) result tokens.new }
{
    let mut found = Vec::new(alloc);
    found.push(first)?;
    for _turn in 0..tokens.left() {
        let Some(_) = tokens.mark(terminal) else {
            return Ok(List::from_vec(found));
        };
        found.push(T::part(alloc, tokens, depth)?)?;
    }
    Ok(List::from_vec(found))
}

/// One part, and more of them behind a mark.
#[tactic(auto, unfolding(crate::specs::Read::separated))]
pub(crate) fn separated<T: Part>(
    alloc: Global,
    tokens: &mut Cursor<'_>,
    depth: u32,
    terminal: Terminal,
) -> Result<List<T>, ReadError>
    ensures { Reads (spec.separated terminal (T.reader depth) tokens.old) result tokens.new }
{
    let first = T::part(alloc, tokens, depth)?;
    further(alloc, first, tokens, depth, terminal)
}
