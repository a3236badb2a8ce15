//! Looks at single characters of a text.

ghost use Rattle.std.specs.Prelude.{◌≡◌, ◌≢◌, ◌<◌, ◌≤◌, IsTrue, length, slice_index};
ghost use Rattle.evo_lex.specs.Front as spec;

/// The character at an index, and 0 behind the end.
pub fn at(text: &[char], index: usize) -> char
    ensures value { result ≡ slice_index text.now index }
    ensures within { result ≢ 0 → index < length text.now }
{
    match text.get(index) {
        Some(c) => *c,
        None => '\0',
    }
}

/// Whether the text begins with two characters.
pub fn starts(first: char, second: char, text: &[char]) -> bool
    requires { 0 < second }
    ensures value { result ≡ spec.starts first second text.now }
    ensures within { IsTrue result → 2 ≤ length text.now }
{
    at(text, 0) == first && at(text, 1) == second
}

pub fn begins_comment(text: &[char]) -> bool
    ensures { result ≡ spec.begins_comment text.now }
{
    starts('/', '/', text) || starts('/', '*', text)
}
