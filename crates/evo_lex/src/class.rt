//! Classes of characters, and runs of them.

ghost use Rattle.std.specs.Prelude.{◌≡◌, ◌≤◌, length};
ghost use Rattle.std.specs.Char.{digit_value};
ghost use Rattle.evo_lex.specs.Characters as spec;

use unicode_ident::{is_xid_continue, is_xid_start};

/// What an integer is written in.
#[derive(Clone, Copy, Debug, PartialEq, Eq)]
pub enum Base {
    Binary,
    Octal,
    Decimal,
    Hexadecimal,
}

/// What the characters of a run have in common.
#[derive(Clone, Copy)]
pub enum Class {
    /// An identifier goes on with it.
    Continuing,
    /// A digit.
    Digits(Base),
    /// A digit or `_`.
    Spaced(Base),
    /// No line feed.
    OfLine,
}

pub fn is_white(c: char) -> bool
    ensures { result ≡ spec.is_white c }
{
    c == ' ' || c == '\t' || c == '\n' || c == '\r'
}

pub fn begins_identifier(c: char) -> bool
    ensures { result ≡ spec.begins_identifier c }
{
    c == '_' || is_xid_start(c)
}

pub fn is_operator(c: char) -> bool
    ensures { result ≡ spec.is_operator c }
{
    c == '/'
        || c == '='
        || c == '-'
        || c == '+'
        || c == '!'
        || c == '*'
        || c == '%'
        || c == '<'
        || c == '>'
        || c == '&'
        || c == '|'
}

/// The value of a digit or a letter, and 36 for any other character.
pub fn digit(c: char) -> u32
    ensures { result ≡ digit_value c }
{
    match c.to_digit(36) {
        Some(value) => value,
        None => 36,
    }
}

pub fn radix(base: Base) -> u32
    ensures { result ≡ spec.radix_of base }
{
    match base {
        Base::Binary => 2,
        Base::Octal => 8,
        Base::Decimal => 10,
        Base::Hexadecimal => 16,
    }
}

pub fn is_digit(base: Base, c: char) -> bool
    ensures { result ≡ spec.is_digit base c }
{
    digit(c) < radix(base)
}

fn is_of(class: Class, c: char) -> bool
    ensures { result ≡ spec.is_of class c }
{
    match class {
        Class::Continuing => is_xid_continue(c),
        Class::Digits(base) => is_digit(base, c),
        Class::Spaced(base) => is_digit(base, c) || c == '_',
        Class::OfLine => c != '\n',
    }
}

/// How many characters of the front are of the class.
pub fn run_len(class: Class, text: &[char]) -> usize
    ensures run { result ≡ spec.run_of class text.now }
    ensures within { result ≤ length text.now }
{
    for (i, c) in text.iter().enumerate() {
        if !is_of(class, *c) {
            return i;
        }
    }
    text.len()
}
