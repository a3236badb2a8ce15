//! The characters of strings.

ghost use Rattle.std.specs.Prelude.{◌≡◌, ◌≤◌, ◌++◌, length, drop, OnOk, IfOk, MatchOption, true, false};
ghost use Rattle.evo_lex.specs.Characters.{run_of, value_of};
ghost use Rattle.evo_lex.specs.Front.{is_scalar};
ghost use Rattle.evo_lex.specs.declared.class.Class.TheVariants.{Digits};
ghost use Rattle.evo_lex.specs.declared.class.Base.TheVariants.{Hexadecimal};
ghost use Rattle.evo_lex.specs.Strings as spec;

use crate::class::{Base, is_digit};
use crate::number::{byte_at, value_said};
use std::alloc::{AllocError, Global};

// How many bytes of the front are hexadecimal digits.
fn hexadecimal_len(text: &[u8]) -> usize
    ensures run { result ≡ run_of (Digits Hexadecimal) text.now }
    ensures within { result ≤ length text.now }
{
    for (i, c) in text.iter().enumerate() {
        if !is_digit(Base::Hexadecimal, char::from(*c)) {
            return i;
        }
    }
    text.len()
}

fn behind(text: &[u8], count: usize) -> &[u8]
    ensures { result.now ≡ drop count text.now }
{
    &text[count.min(text.len())..]
}

fn escape_digits(text: &[u8]) -> usize
    ensures run { result ≡ spec.escape_digits text.now }
    ensures within { result ≤ length text.now }
{
    hexadecimal_len(behind(text, 2))
}

// The character of a value, if there is one.
fn scalar(value: u64) -> Option<char>
    ensures { MatchOption result (is_scalar value ≡ false) (λ c. (is_scalar value ≡ true) × (c ≡ value)) }
{
    if value < 0xd800 || (0xdfff < value && value < 0x11_0000) {
        char::from_u32(value as u32)
    } else {
        None
    }
}

// The value of hexadecimal digits, where it is that of a character.
fn scalar_said(digits: &[u8]) -> Option<char>
    ensures { MatchOption result (is_scalar (value_of Hexadecimal digits.now) ≡ false) (λ c. (is_scalar (value_of Hexadecimal digits.now) ≡ true) × (c ≡ value_of Hexadecimal digits.now)) }
{
    match value_said(Base::Hexadecimal, digits) {
        Some(value) => scalar(value),
        None => None,
    }
}

fn push_all(bytes: &mut Vec<u8>, more: &[u8]) -> Result<(), AllocError>
    ensures { OnOk result (bytes.new.items ≡ bytes.old.items ++ more.now) }
{
    bytes.extend_from_slice(more)
}

// Writes the character of these digits, if there is one.
fn push_scalar(bytes: &mut Vec<u8>, digits: &[u8]) -> Result<(), AllocError>
    ensures { OnOk result (bytes.new.items ≡ bytes.old.items ++ spec.scalar_bytes (value_of Hexadecimal digits.now)) }
{
    let Some(c) = scalar_said(digits) else {
        return Ok(());
    };
    let mut buffer = [0; 4];
    push_all(bytes, c.encode_utf8(&mut buffer).as_bytes())
}

// Writes the character that the escape stands for, by what stands behind the backslash.
#[tactic(auto, unfolding(crate::specs::Strings::escaped))]
fn push_escaped(bytes: &mut Vec<u8>, text: &[u8]) -> Result<(), AllocError>
    ensures { OnOk result (bytes.new.items ≡ bytes.old.items ++ spec.escaped text.now) }
{
    match byte_at(text, 0) {
        b'0' => push_all(bytes, b"\0"),
        b't' => push_all(bytes, b"\t"),
        b'n' => push_all(bytes, b"\n"),
        b'r' => push_all(bytes, b"\r"),
        b'u' => push_scalar(bytes, &behind(text, 2)[..escape_digits(text)]),
        _ => push_all(bytes, &text[..text.len().min(1)]),
    }
}

#[tactic(auto, unfolding(crate::specs::Strings::escape_size))]
fn escape_size(text: &[u8]) -> usize
    ensures { result ≡ spec.escape_size text.now }
{
    if byte_at(text, 0) == b'u' {
        escape_digits(text) + 3
    } else {
        1
    }
}

// The characters of the text between the quotes.
fn unescaped(alloc: Global, text: &[u8]) -> Result<Vec<u8>, AllocError>
    ensures { IfOk result (λ v. v.items ≡ spec.unescaped 0 text.now) }
{
    let mut found = Vec::new(alloc);
    let mut skip = 0;
    for (i, byte) in text.iter().enumerate() {
        if skip > 0 {
            skip -= 1;
            continue;
        }
        if *byte == b'\\' {
            push_escaped(&mut found, &text[i + 1..])?;
            skip = escape_size(&text[i + 1..]);
        } else {
            found.push(*byte)?;
        }
    }
    Ok(found)
}

/// The characters of a string in UTF-8, by the bytes of its token.
#[tactic(auto, unfolding(crate::specs::Strings::string_value))]
pub fn string_value(alloc: Global, text: &[u8]) -> Result<Vec<u8>, AllocError>
    ensures { IfOk result (λ v. v.items ≡ spec.string_value text.now) }
{
    let rest = behind(text, 1);
    let inner = text.len().saturating_sub(2).min(rest.len());
    unescaped(alloc, &rest[..inner])
}
