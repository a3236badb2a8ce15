//! The bodies of functions, and accessors.

ghost use Rattle.std.specs.Prelude.{◌≡◌, ◌++◌, OnOk, codes};
ghost use Rattle.evo_tree.specs.Canonical.{accessor_text, accessors_text, block_text, body_text, optional};

use crate::printer::{Printer, deeper};
use crate::statement::print_block;
use evo_tree::{Accessors, Block};
use std::alloc::AllocError;

/// A block behind a word.
fn print_behind(out: &mut Printer, word: &[u8], block: &Block, depth: u64) -> Result<(), AllocError>
    ensures { OnOk result (out.new ≡ out.old ++ (word.now ++ codes " " ++ block_text block.now depth)) }
{
    out.put(word)?;
    out.put(b" ")?;
    print_block(out, block, depth)
}

/// A body, where there is one.
pub(crate) fn print_body(
    out: &mut Printer,
    body: &Option<Block>,
    depth: u64,
) -> Result<(), AllocError>
    ensures { OnOk result (out.new ≡ out.old ++ body_text depth body.now) }
{
    match body {
        Some(body) => print_behind(out, b"", body, depth),
        None => Ok(()),
    }
}

/// An accessor with its block, on lines of its own.
fn print_accessor(
    out: &mut Printer,
    word: &[u8],
    block: &Block,
    depth: u64,
) -> Result<(), AllocError>
    ensures { OnOk result (out.new ≡ out.old ++ accessor_text word.now block.now depth) }
{
    out.put_indent(depth)?;
    print_behind(out, word, block, depth)?;
    out.put(b"\n")
}

fn print_setter(out: &mut Printer, setter: &Option<Block>, depth: u64) -> Result<(), AllocError>
    ensures { OnOk result (out.new ≡ out.old ++ optional (λ b. accessor_text (codes "set") b depth) setter.now) }
{
    match setter {
        Some(setter) => print_accessor(out, b"set", setter, depth),
        None => Ok(()),
    }
}

/// A getter, and perhaps a setter, in braces.
fn print_blocks(
    out: &mut Printer,
    getter: &Block,
    setter: &Option<Block>,
    depth: u64,
) -> Result<(), AllocError>
    ensures { OnOk result (out.new ≡ out.old ++ accessors_text depth (Accessors.Blocks getter.now setter.now)) }
{
    let inner = deeper(depth)?;
    out.put(b" {\n")?;
    print_accessor(out, b"get", getter, inner)?;
    print_setter(out, setter, inner)?;
    out.close(depth)
}

pub(crate) fn print_accessors(
    out: &mut Printer,
    accessors: &Accessors,
    depth: u64,
) -> Result<(), AllocError>
    ensures { OnOk result (out.new ≡ out.old ++ accessors_text depth accessors.now) }
{
    match accessors {
        Accessors::Stored => Ok(()),
        Accessors::Get => out.put(b" { get }"),
        Accessors::GetSet => out.put(b" { get set }"),
        Accessors::Block(getter) => print_behind(out, b"", getter, depth),
        Accessors::Blocks(getter, setter) => print_blocks(out, getter, setter, depth),
    }
}
