//! Operators.

ghost use Rattle.std.specs.Prelude.{◌≡◌, ◌≤◌, ◌<◌, length, IfSome};
ghost use Rattle.evo_lex.specs.Front as spec;

use crate::class::is_operator;
use crate::peek::begins_comment;
use crate::word::is_one_of;

/// The runs of operator characters that are operators.
static OPERATORS: [&[u8]; 27] = [
    b"+", b"-", b"*", b"/", b"%", b"&+", b"&-", b"&*", b"==", b"!=", b"<", b"<=", b">", b">=",
    b"===", b"!==", b"&&", b"||", b"!", b"&", b"=", b"+=", b"-=", b"*=", b"/=", b"%=", b"->",
];

fn operator_run(text: &[char]) -> usize
    ensures run { result ≡ spec.operator_run text.now }
    ensures within { result ≤ length text.now }
{
    for (i, c) in text.iter().enumerate() {
        if !is_operator(*c) || begins_comment(&text[i..]) {
            return i;
        }
    }
    text.len()
}

#[tactic(auto, unfolding(crate::specs::Front::is_operator_word))]
fn is_operator_word(word: &[char]) -> bool
    ensures { result ≡ spec.is_operator_word word.now }
{
    is_one_of(&OPERATORS, word)
}

/// The length of the operator that is the front.
#[tactic(auto, unfolding(crate::specs::Front::operator_of))]
pub fn operator_len(text: &[char]) -> Option<usize>
    ensures value { result ≡ spec.operator_of text.now }
    ensures within { IfSome result (λ n. (0 < n) × (n ≤ length text.now)) }
{
    let len = operator_run(text);
    if is_operator_word(&text[..len]) {
        Some(len)
    } else {
        None
    }
}
