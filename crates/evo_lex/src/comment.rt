//! White space and comments.

ghost use Rattle.std.specs.Prelude.{◌≡◌, ◌≤◌, ◌<◌, ◌+◌, length, IfSome};
ghost use Rattle.evo_lex.specs.Front as spec;

use crate::class::{Class, is_white, run_len};
use crate::peek::{at, starts};

// Where a nested comment ends, by the text behind its opening of two characters.
fn comment_end(text: &[char]) -> Option<usize>
    ensures value { result ≡ spec.comment_from 2 0 text.now }
    ensures within { IfSome result (λ n. (0 < n) × (n ≤ length text.now + 2)) }
{
    let mut read: usize = 0;
    let mut depth: usize = 0;
    while read < text.len() {
        let rest = &text[read..];
        if starts('*', '/', rest) {
            read += 2;
            if depth == 0 {
                return Some(read + 2);
            }
            depth -= 1;
        } else if starts('/', '*', rest) {
            read += 2;
            depth += 1;
        } else {
            read += 1;
        }
    }
    None
}

/// The length of the white character or the comment that is the front.
#[tactic(auto, unfolding(crate::specs::Front::white_of))]
pub fn white_len(text: &[char]) -> Option<usize>
    requires { 0 < length text.now }
    ensures value { result ≡ spec.white_of text.now }
    ensures within { IfSome result (λ n. (0 < n) × (n ≤ length text.now)) }
{
    if is_white(at(text, 0)) {
        return Some(1);
    }
    if starts('/', '/', text) {
        return Some(2 + run_len(Class::OfLine, &text[2..]));
    }
    if starts('/', '*', text) {
        return comment_end(&text[2..]);
    }
    None
}
