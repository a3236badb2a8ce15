//! The parts of a heading, which are taken off the front of a text.

ghost use Rattle.std.specs.Prelude.{◌≡◌, ◌==◌, ◌≤◌, IfOk, length, not};
ghost use Rattle.std.specs.Char.{is_ascii_digit};
ghost use Rattle.std.specs.List.{prefix_len};
ghost use Rattle.evo_heading.specs.Heading.{Front, Rest, IsEnded, IsOpened, IsNamed, IsNumbered, IsReleased};

use evo_base::{Name, Release};
use evo_lex::{is_module, number_of};
use std::alloc::{AllocError, Global};

/// The first line.
pub const FORMAT: &[u8] = b"// swift-interface-format-version: 1.0";

/// What stands before the module's name in the second line.
pub const BEFORE_NAME: &[u8] = b"// swevo-module: ";

/// What stands behind a line's end.
pub fn behind_line_end(text: &[u8]) -> Option<&[u8]>
    ensures { Rest (IsEnded text.now) result }
{
    if let Some(rest) = text.strip_prefix(b"\n") {
        return Some(rest);
    }
    text.strip_prefix(b"\r\n")
}

/// What stands behind the first line and the words before the module's name.
pub fn behind_opening(text: &[u8]) -> Option<&[u8]>
    ensures { Rest (IsOpened FORMAT.now BEFORE_NAME.now text.now) result }
{
    let line_end = text.strip_prefix(FORMAT)?;
    let second = behind_line_end(line_end)?;
    second.strip_prefix(BEFORE_NAME)
}

// How many bytes stand before the first space.
fn word_len(text: &[u8]) -> usize
    ensures value { result ≡ prefix_len (λ c. not (c == 32)) text.now }
    ensures within { result ≤ length text.now }
{
    text.iter().take_while(|c| **c != b' ').count()
}

/// The module's name at the front, and what stands behind the space that ends it.
pub fn module_name<'t>(
    alloc: Global,
    text: &'t [u8],
) -> Result<Option<(Name, &'t [u8])>, AllocError>
    ensures { IfOk result (Front (IsNamed text.now)) }
{
    let (word, rest) = text.split_at(word_len(text));
    let Some(rest) = rest.strip_prefix(b" ") else {
        return Ok(None);
    };
    let Ok(name) = str::from_utf8(word) else {
        return Ok(None);
    };
    if !is_module(name) {
        return Ok(None);
    }
    Ok(Some((Name::from_vec(word.to_vec(alloc)?), rest)))
}

// How many digits stand at the front.
fn digits_len(text: &[u8]) -> usize
    ensures value { result ≡ prefix_len is_ascii_digit text.now }
    ensures within { result ≤ length text.now }
{
    text.iter().take_while(|c| c.is_ascii_digit()).count()
}

// The number of all digits at the front, and what stands behind them.
fn number<'t>(alloc: Global, text: &'t [u8]) -> Result<Option<(u32, &'t [u8])>, AllocError>
    ensures { IfOk result (Front (IsNumbered text.now)) }
{
    let (digits, rest) = text.split_at(digits_len(text));
    let Some(number) = number_of(alloc, digits)? else {
        return Ok(None);
    };
    let Ok(number) = u32::try_from(number) else {
        return Ok(None);
    };
    Ok(Some((number, rest)))
}

/// The release at the front, two numbers with a dot between them, and what stands behind it.
pub fn release<'t>(alloc: Global, text: &'t [u8]) -> Result<Option<(Release, &'t [u8])>, AllocError>
    ensures { IfOk result (Front (IsReleased text.now)) }
{
    let Some((major, rest)) = number(alloc, text)? else {
        return Ok(None);
    };
    let Some(rest) = rest.strip_prefix(b".") else {
        return Ok(None);
    };
    let Some((minor, rest)) = number(alloc, rest)? else {
        return Ok(None);
    };
    Ok(Some((Release { major, minor }, rest)))
}
