//! Blocks within braces.

ghost use Rattle.std.specs.Prelude.{◌≡◌, ◌<◌, false};
ghost use Rattle.evo_combinators.specs.Reader.{Reads};
ghost use Rattle.evo_parse_decl.specs.Read.{within};
ghost use Rattle.evo_parse_decl.specs.Closed.{block_at};

use evo_combinators::ReadError;
use evo_parse_expr::Cursor;
use evo_parse_stmt::block;
use evo_tree::Block;
use std::alloc::Global;

/// A block within braces that are open.
pub(crate) fn inner_block(
    alloc: Global,
    tokens: &mut Cursor<'_>,
    depth: u32,
) -> Result<Block, ReadError>
    requires { 0 < depth }
    ensures { Reads (within (λ e. block_at e false) depth tokens.old) result tokens.new }
{
    block(alloc, tokens, depth - 1, false)
}
