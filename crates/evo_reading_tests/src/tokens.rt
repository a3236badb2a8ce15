//! How the lexer cuts a text: a mark for each token, and the place, the index and the length of the last one.

use evo_base::{Token, TokenKind};
use evo_lex::lex;
use std::alloc::{AllocError, Global};

// What stands for a kind of token in a row.
fn letter(kind: TokenKind) -> char {
    match kind {
        TokenKind::Identifier => 'I',
        TokenKind::Underscore => 'U',
        TokenKind::Keyword => 'K',
        TokenKind::Integer => 'N',
        TokenKind::String => 'S',
        TokenKind::Operator => 'O',
        TokenKind::OpenParenthesis => '(',
        TokenKind::CloseParenthesis => ')',
        TokenKind::OpenBrace => '{',
        TokenKind::CloseBrace => '}',
        TokenKind::Comma => ',',
        TokenKind::Semicolon => ';',
        TokenKind::Colon => ':',
        TokenKind::Dot => '.',
        TokenKind::At => '@',
        TokenKind::Hash => '#',
    }
}

// The kinds of the tokens, and where the last one stands.
fn shown_tokens(alloc: Global, tokens: &[Token]) -> Result<String, AllocError> {
    let mut shown = String::new(alloc);
    for token in tokens {
        shown.push(letter(token.kind))?;
    }
    if let Some(token) = tokens.last() {
        let place = token.place;
        let at = format!(in alloc;
            " {}:{} {}+{}",
            place.line, place.col, token.start, token.len
        )?;
        shown.push_str(&at)?;
    }
    Ok(shown)
}

/// The tokens of a text.
pub fn shown(alloc: Global, text: &str) -> Result<String, AllocError> {
    if text.len() > 1_000 {
        return String::from_str(alloc, "too long");
    }
    match lex(alloc, text.as_bytes()) {
        Ok(tokens) => shown_tokens(alloc, &tokens),
        Err(_) => String::from_str(alloc, "no tokens"),
    }
}
