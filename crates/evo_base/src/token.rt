use crate::Place;

/// What a token is.
#[derive(Clone, Copy, Debug, PartialEq, Eq)]
pub enum TokenKind {
    /// An identifier of Unicode, or one that begins with `_`.
    Identifier,
    /// `_` alone.
    Underscore,
    /// An identifier that names nothing.
    Keyword,
    /// Digits of one base, with `_` among them.
    Integer,
    /// Characters between two `"` on one line.
    String,
    /// A run of operator characters.
    Operator,
    /// `(`
    OpenParenthesis,
    /// `)`
    CloseParenthesis,
    /// `{`
    OpenBrace,
    /// `}`
    CloseBrace,
    /// `,`
    Comma,
    /// `;`
    Semicolon,
    /// `:`
    Colon,
    /// `.`
    Dot,
    /// `@`
    At,
    /// `#`
    Hash,
}

/// A token of a source text. Its own text is the slice of `len` bytes from the byte `start` on, where the first byte is 0.
#[derive(Clone, Copy, Debug, PartialEq, Eq)]
pub struct Token {
    pub kind: TokenKind,
    /// Where its first character stands.
    pub place: Place,
    pub start: u32,
    pub len: u32,
}
