//! Literals.

ghost use Rattle.std.specs.Prelude.{◌≡◌, ◌<◌, ◌++◌, OnOk, codes, decimal};
ghost use Rattle.std.specs.List.{flat_map};
ghost use Rattle.evo_tree.specs.Canonical.{string_text};
ghost use Rattle.evo_tree.specs.Canonical as spec;

use crate::printer::Printer;
use evo_base::Name;
use std::alloc::AllocError;

fn hexadecimal_digit(digit: u8) -> u8
    requires { digit < 16 }
    ensures { result ≡ spec.hexadecimal_digit digit }
{
    if digit < 10 { 48 + digit } else { 87 + digit }
}

/// A byte in hexadecimal, without leading zeros.
fn print_hexadecimal(out: &mut Printer, byte: u8) -> Result<(), AllocError>
    ensures { OnOk result (out.new ≡ out.old ++ spec.hexadecimal byte) }
{
    if byte < 16 {
        return out.put(&[hexadecimal_digit(byte)]);
    }
    out.put(&[hexadecimal_digit(byte / 16), hexadecimal_digit(byte % 16)])
}

/// A character of a string by its number.
fn print_numbered(out: &mut Printer, byte: u8) -> Result<(), AllocError>
    ensures { OnOk result (out.new ≡ out.old ++ spec.numbered byte) }
{
    out.put(b"\\u{")?;
    print_hexadecimal(out, byte)?;
    out.put(b"}")
}

/// What stands in a string for a byte of its characters.
fn print_escape(out: &mut Printer, byte: u8) -> Result<(), AllocError>
    ensures { OnOk result (out.new ≡ out.old ++ spec.escape byte) }
{
    if byte == 0 {
        return out.put(b"\\0");
    }
    if byte == b'\t' {
        return out.put(b"\\t");
    }
    if byte == b'\n' {
        return out.put(b"\\n");
    }
    if byte == b'\r' {
        return out.put(b"\\r");
    }
    if byte == b'"' {
        return out.put(b"\\\"");
    }
    if byte == b'\\' {
        return out.put(b"\\\\");
    }
    if byte < 32 || byte == 127 {
        return print_numbered(out, byte);
    }
    out.put(&[byte])
}

fn print_characters(out: &mut Printer, characters: &[u8]) -> Result<(), AllocError>
    ensures { OnOk result (out.new ≡ out.old ++ flat_map spec.escape characters.now) }
{
    for byte in characters {
        print_escape(out, *byte)?;
    }
    Ok(())
}

/// A literal string, by its characters.
pub(crate) fn print_string(out: &mut Printer, characters: &Name) -> Result<(), AllocError>
    ensures { OnOk result (out.new ≡ out.old ++ string_text characters.now) }
{
    out.put(b"\"")?;
    print_characters(out, characters.as_slice())?;
    out.put(b"\"")
}

/// A number behind `-`.
pub(crate) fn print_negative(out: &mut Printer, number: u64) -> Result<(), AllocError>
    ensures { OnOk result (out.new ≡ out.old ++ (codes "-" ++ decimal number)) }
{
    out.put(b"-")?;
    out.put_number(number)
}
