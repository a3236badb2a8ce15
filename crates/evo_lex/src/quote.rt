//! Strings.

ghost use Rattle.std.specs.Prelude.{◌≡◌, ◌≤◌, ◌<◌, ◌+◌, length, IfSome};
ghost use Rattle.evo_lex.specs.Front as spec;

use crate::class::{Base, Class, run_len};
use crate::number::value;
use crate::peek::{at, starts};

fn is_escape(c: char) -> bool
    ensures { result ≡ spec.is_escape c }
{
    c == '0' || c == '\\' || c == 't' || c == 'n' || c == 'r' || c == '"' || c == '\''
}

fn is_scalar(value: u64) -> bool
    ensures { result ≡ spec.is_scalar value }
{
    value < 0xd800 || (0xdfff < value && value < 0x11_0000)
}

// Whether so many characters are the digits of a character's value.
fn is_scalar_text(len: usize, text: &[char]) -> bool
    requires { len ≤ length text.now }
    ensures { result ≡ spec.is_scalar_text len text.now }
{
    if len == 0 || len > 8 || at(text, len) != '}' {
        return false;
    }
    match value(Base::Hexadecimal, &text[..len]) {
        Some(value) => is_scalar(value),
        None => false,
    }
}

// The length of the escape behind a backslash.
#[tactic(auto, unfolding(crate::specs::Front::escape_of))]
fn escape_len(text: &[char]) -> Option<usize>
    ensures value { result ≡ spec.escape_of text.now }
{
    if is_escape(at(text, 0)) {
        return Some(1);
    }
    if !starts('u', '{', text) {
        return None;
    }
    let len = run_len(Class::Digits(Base::Hexadecimal), &text[2..]);
    if is_scalar_text(len, &text[2..]) {
        Some(len + 3)
    } else {
        None
    }
}

// Where a string ends, by the text behind its first quote.
fn string_end(text: &[char]) -> Option<usize>
    ensures value { result ≡ spec.string_from 1 0 text.now }
    ensures within { IfSome result (λ n. (0 < n) × (n ≤ length text.now + 1)) }
{
    let mut skip = 0;
    for (i, c) in text.iter().enumerate() {
        if skip > 0 {
            skip -= 1;
            continue;
        }
        match *c {
            '"' => return Some(i + 2),
            '\n' => return None,
            '\\' => skip = escape_len(&text[i + 1..])?,
            _ => {}
        }
    }
    None
}

/// The length of the string that is the front.
#[tactic(auto, unfolding(crate::specs::Front::string_of))]
pub fn string_len(text: &[char]) -> Option<usize>
    requires { 0 < length text.now }
    ensures value { result ≡ spec.string_of text.now }
    ensures within { IfSome result (λ n. (0 < n) × (n ≤ length text.now)) }
{
    if at(text, 1) == '"' && at(text, 2) == '"' {
        return None;
    }
    string_end(&text[1..])
}
