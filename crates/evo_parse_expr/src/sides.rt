//! The white space beside a token.

ghost use Rattle.std.specs.Prelude.{◌≡◌};
ghost use Rattle.evo_lex.specs.Sides as sides;
ghost use Rattle.evo_tree.specs.Pieces as spec;

use evo_base::{Token, TokenKind};
use evo_tree::{Role, Terminal};

fn breaks_line(token: &Token, next: &Token) -> bool
    ensures { result ≡ sides.breaks_line token.now next.now }
{
    token.place.line < next.place.line
}

// A token's end is computed in 64 bits, since nothing bounds a token by itself.
fn is_apart(token: &Token, next: &Token) -> bool
    ensures { result ≡ sides.is_apart token.now next.now }
{
    u64::from(token.start) + u64::from(token.len) < u64::from(next.start)
}

fn is_separator(kind: TokenKind) -> bool
    ensures { result ≡ sides.is_separator kind }
{
    match kind {
        TokenKind::Comma | TokenKind::Semicolon | TokenKind::Colon => true,
        _ => false,
    }
}

fn is_opening(kind: TokenKind) -> bool
    ensures { result ≡ sides.is_opening kind }
{
    match kind {
        TokenKind::OpenParenthesis | TokenKind::OpenBrace => true,
        _ => false,
    }
}

fn is_closing(kind: TokenKind) -> bool
    ensures { result ≡ sides.is_closing kind }
{
    match kind {
        TokenKind::CloseParenthesis | TokenKind::CloseBrace => true,
        _ => false,
    }
}

fn white_left(before: Option<Token>, token: &Token) -> bool
    ensures { result ≡ sides.white_left before token.now }
{
    match before {
        None => true,
        Some(before) => {
            is_apart(&before, token) || is_opening(before.kind) || is_separator(before.kind)
        }
    }
}

fn white_right(token: &Token, behind: Option<Token>) -> bool
    ensures { result ≡ sides.white_right token.now behind }
{
    match behind {
        None => true,
        Some(behind) => {
            is_apart(token, &behind) || is_closing(behind.kind) || is_separator(behind.kind)
        }
    }
}

fn is_integer_token(token: Option<Token>) -> bool
    ensures { result ≡ spec.is_integer_token token }
{
    match token {
        None => false,
        Some(token) => match token.kind {
            TokenKind::Integer => true,
            _ => false,
        },
    }
}

// The role of an operator before its operand.
fn prefix_role(terminal: Terminal, integer: bool) -> Role
    ensures { result ≡ spec.prefix_role terminal integer }
{
    match terminal {
        Terminal::Minus => {
            if integer {
                Role::Negative
            } else {
                Role::Prefix
            }
        }
        _ => Role::Prefix,
    }
}

/// What the white space beside a token makes of it.
pub fn role_of(
    terminal: Terminal,
    before: Option<Token>,
    token: &Token,
    behind: Option<Token>,
) -> Role
    ensures { result ≡ spec.role_of terminal before token.now behind }
{
    let left = white_left(before, token);
    let right = white_right(token, behind);
    if left && !right {
        prefix_role(terminal, is_integer_token(behind))
    } else if left == right {
        Role::Infix
    } else {
        Role::Unattached
    }
}

/// Whether a token stands on a later line than the one before it.
pub fn is_below(before: Option<Token>, token: &Token) -> bool
    ensures { result ≡ spec.is_below before token.now }
{
    match before {
        None => false,
        Some(before) => breaks_line(&before, token),
    }
}
