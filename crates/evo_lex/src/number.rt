//! Integers.

ghost use Rattle.std.specs.Prelude.{◌≡◌, ◌≢◌, ◌≤◌, ◌<◌, ◌+◌, ◌^◌, nat_le, length, slice_index, IfSome, IsTrue};
ghost use Rattle.evo_lex.specs.Characters as characters;
ghost use Rattle.evo_lex.specs.Front as spec;

use crate::class::{Base, Class, digit, is_digit, radix, run_len};
use crate::peek::{at, starts};
use unicode_ident::is_xid_continue;

// The value of digits and one more, where it is at most 2^63; `_` changes nothing.
fn with_digit(base: Base, value: u64, c: char) -> Option<u64>
    requires { value ≤ 2 ^ 63 }
    ensures { result ≡ spec.when (nat_le (characters.with_digit base value c) (2 ^ 63)) (characters.with_digit base value c) }
{
    if c == '_' {
        return Some(value);
    }
    let scaled = value.checked_mul(u64::from(radix(base)))?;
    let more = scaled.checked_add(u64::from(digit(c)))?;
    if more <= 0x8000_0000_0000_0000 {
        Some(more)
    } else {
        None
    }
}

/// The value of digits, where it is at most 2^63.
pub fn value(base: Base, digits: &[char]) -> Option<u64>
    ensures { result ≡ spec.when (nat_le (characters.value_of base digits.now) (2 ^ 63)) (characters.value_of base digits.now) }
{
    let mut value = 0;
    for c in digits {
        value = with_digit(base, value, *c)?;
    }
    Some(value)
}

fn base_of(text: &[char]) -> Base
    ensures value { result ≡ spec.base_of text.now }
    ensures within { spec.prefix_of result ≤ length text.now }
{
    if starts('0', 'x', text) {
        Base::Hexadecimal
    } else if starts('0', 'o', text) {
        Base::Octal
    } else if starts('0', 'b', text) {
        Base::Binary
    } else {
        Base::Decimal
    }
}

fn prefix_of(base: Base) -> usize
    ensures value { result ≡ spec.prefix_of base }
    ensures small { result ≤ 2 }
{
    match base {
        Base::Decimal => 0,
        _ => 2,
    }
}

// The length of an integer of the base, by the digits behind what says the base.
fn digits_len(base: Base, text: &[char]) -> Option<usize>
    ensures value { result ≡ spec.digits_of base text.now }
    ensures within { IfSome result (λ n. (0 < n) × (n ≤ spec.prefix_of base + length text.now)) }
{
    if !is_digit(base, at(text, 0)) {
        return None;
    }
    let len = 1 + run_len(Class::Spaced(base), &text[1..]);
    let _value = value(base, &text[..len])?;
    if is_xid_continue(at(text, len)) {
        return None;
    }
    Some(prefix_of(base) + len)
}

/// The length of the integer that is the front.
#[tactic(auto, unfolding(crate::specs::Front::integer_of))]
pub fn integer_len(text: &[char]) -> Option<usize>
    ensures value { result ≡ spec.integer_of text.now }
    ensures within { IfSome result (λ n. (0 < n) × (n ≤ length text.now)) }
{
    let base = base_of(text);
    digits_len(base, &text[prefix_of(base)..])
}

/// The byte at an index, and 0 behind the end.
pub fn byte_at(text: &[u8], index: usize) -> u8
    ensures value { result ≡ slice_index text.now index }
    ensures within { result ≢ 0 → index < length text.now }
{
    match text.get(index) {
        Some(byte) => *byte,
        None => 0,
    }
}

// Whether the text begins with a zero and this letter.
fn says(letter: u8, text: &[u8]) -> bool
    requires { 0 < letter }
    ensures value { result ≡ spec.starts 48 letter text.now }
    ensures within { IsTrue result → 2 ≤ length text.now }
{
    byte_at(text, 0) == b'0' && byte_at(text, 1) == letter
}

fn base_said(text: &[u8]) -> Base
    ensures value { result ≡ spec.base_of text.now }
    ensures within { spec.prefix_of result ≤ length text.now }
{
    if says(b'x', text) {
        Base::Hexadecimal
    } else if says(b'o', text) {
        Base::Octal
    } else if says(b'b', text) {
        Base::Binary
    } else {
        Base::Decimal
    }
}

/// The value of digits, by their bytes, where it is at most 2^63.
pub fn value_said(base: Base, digits: &[u8]) -> Option<u64>
    ensures { result ≡ spec.when (nat_le (characters.value_of base digits.now) (2 ^ 63)) (characters.value_of base digits.now) }
{
    let mut value = 0;
    for c in digits {
        value = with_digit(base, value, char::from(*c))?;
    }
    Some(value)
}

/// The value of an integer, by the bytes of its token, where it is at most 2^63.
pub fn integer_value(text: &[u8]) -> Option<u64>
    ensures { result ≡ spec.when (nat_le (spec.integer_value text.now) (2 ^ 63)) (spec.integer_value text.now) }
{
    let base = base_said(text);
    value_said(base, &text[prefix_of(base)..])
}
