//! The terminal symbols of the grammar.

/// What a token is in the grammar.
#[derive(Clone, Copy, PartialEq, Eq)]
pub enum Terminal {
    Identifier,
    Underscore,
    Integer,
    String,
    Import,
    Struct,
    Enum,
    Class,
    Protocol,
    Extension,
    Func,
    Init,
    Var,
    Let,
    Typealias,
    Associatedtype,
    Case,
    Open,
    Public,
    Internal,
    Private,
    Final,
    Static,
    Mutating,
    Override,
    /// `self`
    SelfValue,
    /// `Self`
    SelfType,
    Super,
    Return,
    If,
    Else,
    While,
    Switch,
    Default,
    Break,
    Continue,
    True,
    False,
    Where,
    /// `+`
    Plus,
    /// `-`
    Minus,
    /// `*`
    Star,
    /// `/`
    Slash,
    /// `%`
    Percent,
    /// `&+`
    WrappingPlus,
    /// `&-`
    WrappingMinus,
    /// `&*`
    WrappingStar,
    /// `==`
    EqualEqual,
    /// `!=`
    NotEqual,
    /// `<`
    Less,
    /// `<=`
    LessEqual,
    /// `>`
    Greater,
    /// `>=`
    GreaterEqual,
    /// `===`
    Identical,
    /// `!==`
    NotIdentical,
    /// `&&`
    AndAnd,
    /// `||`
    OrOr,
    /// `!`
    Not,
    /// `&`
    And,
    /// `=`
    Equal,
    /// `+=`
    PlusEqual,
    /// `-=`
    MinusEqual,
    /// `*=`
    StarEqual,
    /// `/=`
    SlashEqual,
    /// `%=`
    PercentEqual,
    /// `->`
    Arrow,
    OpenParenthesis,
    CloseParenthesis,
    OpenBrace,
    CloseBrace,
    Comma,
    Semicolon,
    Colon,
    Dot,
    At,
    /// A token that no production has.
    Other,
}

/// What the white space beside a token makes of an operator.
#[derive(Clone, Copy, PartialEq, Eq)]
pub enum Role {
    /// White space on both sides or on neither: between operands.
    Infix,
    /// White space on the left alone: before its operand.
    Prefix,
    /// A `-` that stands so directly before an integer.
    Negative,
    /// White space on the right alone.
    Unattached,
}
