//! What the front of a text is.

ghost use Rattle.std.specs.Prelude.{◌≡◌, ◌≤◌, ◌<◌, ◌+◌, length, IfSome};
ghost use Rattle.evo_lex.specs.Front as spec;

use crate::class::{Class, begins_identifier, is_operator, run_len};
use crate::comment::white_len;
use crate::number::integer_len;
use crate::operator::operator_len;
use crate::peek::at;
use crate::quote::string_len;
use crate::word::kind_of;
use evo_base::TokenKind;

/// What the front of a text is.
#[derive(Clone, Copy)]
pub enum Front {
    /// A white character, or a comment.
    White,
    Token(TokenKind),
}

fn mark(c: char) -> Option<TokenKind>
    ensures { result ≡ spec.mark_of c }
{
    match c {
        '(' => Some(TokenKind::OpenParenthesis),
        ')' => Some(TokenKind::CloseParenthesis),
        '{' => Some(TokenKind::OpenBrace),
        '}' => Some(TokenKind::CloseBrace),
        ',' => Some(TokenKind::Comma),
        ';' => Some(TokenKind::Semicolon),
        ':' => Some(TokenKind::Colon),
        '.' => Some(TokenKind::Dot),
        '@' => Some(TokenKind::At),
        '#' => Some(TokenKind::Hash),
        _ => None,
    }
}

// The token at the front, with its length.
#[tactic(auto, unfolding(crate::specs::Front::first_of))]
fn first(text: &[char]) -> Option<(TokenKind, usize)>
    requires { 0 < length text.now }
    ensures value { result ≡ spec.first_of text.now }
    ensures within { IfSome result (λ r. (0 < r.1) × (r.1 ≤ length text.now)) }
{
    let c = at(text, 0);
    if begins_identifier(c) {
        let len = 1 + run_len(Class::Continuing, &text[1..]);
        return Some((kind_of(&text[..len]), len));
    }
    if c.is_ascii_digit() {
        return Some((TokenKind::Integer, integer_len(text)?));
    }
    if c == '"' {
        return Some((TokenKind::String, string_len(text)?));
    }
    if is_operator(c) {
        return Some((TokenKind::Operator, operator_len(text)?));
    }
    Some((mark(c)?, 1))
}

/// What the front of the text is, with its length.
#[tactic(auto, unfolding(crate::specs::Front::front_of))]
pub fn read_front(text: &[char]) -> Option<(Front, usize)>
    requires { 0 < length text.now }
    ensures value { result ≡ spec.front_of text.now }
    ensures within { IfSome result (λ r. (0 < r.1) × (r.1 ≤ length text.now)) }
{
    if let Some(len) = white_len(text) {
        return Some((Front::White, len));
    }
    let (kind, len) = first(text)?;
    Some((Front::Token(kind), len))
}
