//! The terminal symbols of tokens.

ghost use Rattle.std.specs.Prelude.{◌≡◌, map};
ghost use Rattle.evo_tree.specs.Terminals as spec;

use evo_base::TokenKind;
use evo_tree::Terminal;

/// The keywords, with their terminals.
static KEYWORDS: [(&[u8], Terminal); 35] = [
    (b"import", Terminal::Import),
    (b"struct", Terminal::Struct),
    (b"enum", Terminal::Enum),
    (b"class", Terminal::Class),
    (b"protocol", Terminal::Protocol),
    (b"extension", Terminal::Extension),
    (b"func", Terminal::Func),
    (b"init", Terminal::Init),
    (b"var", Terminal::Var),
    (b"let", Terminal::Let),
    (b"typealias", Terminal::Typealias),
    (b"associatedtype", Terminal::Associatedtype),
    (b"case", Terminal::Case),
    (b"open", Terminal::Open),
    (b"public", Terminal::Public),
    (b"internal", Terminal::Internal),
    (b"private", Terminal::Private),
    (b"final", Terminal::Final),
    (b"static", Terminal::Static),
    (b"mutating", Terminal::Mutating),
    (b"override", Terminal::Override),
    (b"self", Terminal::SelfValue),
    (b"Self", Terminal::SelfType),
    (b"super", Terminal::Super),
    (b"return", Terminal::Return),
    (b"if", Terminal::If),
    (b"else", Terminal::Else),
    (b"while", Terminal::While),
    (b"switch", Terminal::Switch),
    (b"default", Terminal::Default),
    (b"break", Terminal::Break),
    (b"continue", Terminal::Continue),
    (b"true", Terminal::True),
    (b"false", Terminal::False),
    (b"where", Terminal::Where),
];

/// The operators, with their terminals.
static OPERATORS: [(&[u8], Terminal); 27] = [
    (b"+", Terminal::Plus),
    (b"-", Terminal::Minus),
    (b"*", Terminal::Star),
    (b"/", Terminal::Slash),
    (b"%", Terminal::Percent),
    (b"&+", Terminal::WrappingPlus),
    (b"&-", Terminal::WrappingMinus),
    (b"&*", Terminal::WrappingStar),
    (b"==", Terminal::EqualEqual),
    (b"!=", Terminal::NotEqual),
    (b"<", Terminal::Less),
    (b"<=", Terminal::LessEqual),
    (b">", Terminal::Greater),
    (b">=", Terminal::GreaterEqual),
    (b"===", Terminal::Identical),
    (b"!==", Terminal::NotIdentical),
    (b"&&", Terminal::AndAnd),
    (b"||", Terminal::OrOr),
    (b"!", Terminal::Not),
    (b"&", Terminal::And),
    (b"=", Terminal::Equal),
    (b"+=", Terminal::PlusEqual),
    (b"-=", Terminal::MinusEqual),
    (b"*=", Terminal::StarEqual),
    (b"/=", Terminal::SlashEqual),
    (b"%=", Terminal::PercentEqual),
    (b"->", Terminal::Arrow),
];

/// The terminal's place among all.
pub fn number(terminal: Terminal) -> u8
    ensures { result ≡ spec.number_of terminal }
{
    terminal as u8
}

// The terminal of a text in a table.
fn terminal_in(table: &[(&[u8], Terminal)], text: &[u8]) -> Terminal
    ensures { result ≡ spec.terminal_in (map (λ row. (row.0.now, row.1)) table.now) text.now }
{
    for row in table {
        if row.0 == text {
            return row.1;
        }
    }
    Terminal::Other
}

#[tactic(auto, unfolding(evo_tree::specs::Terminals::keyword_terminal))]
fn keyword_terminal(text: &[u8]) -> Terminal
    ensures { result ≡ spec.keyword_terminal text.now }
{
    terminal_in(&KEYWORDS, text)
}

#[tactic(auto, unfolding(evo_tree::specs::Terminals::operator_terminal))]
fn operator_terminal(text: &[u8]) -> Terminal
    ensures { result ≡ spec.operator_terminal text.now }
{
    terminal_in(&OPERATORS, text)
}

/// The terminal of a token of this kind with this text.
pub fn terminal_of(kind: TokenKind, text: &[u8]) -> Terminal
    ensures { result ≡ spec.terminal_of kind text.now }
{
    match kind {
        TokenKind::Identifier => Terminal::Identifier,
        TokenKind::Underscore => Terminal::Underscore,
        TokenKind::Keyword => keyword_terminal(text),
        TokenKind::Integer => Terminal::Integer,
        TokenKind::String => Terminal::String,
        TokenKind::Operator => operator_terminal(text),
        TokenKind::OpenParenthesis => Terminal::OpenParenthesis,
        TokenKind::CloseParenthesis => Terminal::CloseParenthesis,
        TokenKind::OpenBrace => Terminal::OpenBrace,
        TokenKind::CloseBrace => Terminal::CloseBrace,
        TokenKind::Comma => Terminal::Comma,
        TokenKind::Semicolon => Terminal::Semicolon,
        TokenKind::Colon => Terminal::Colon,
        TokenKind::Dot => Terminal::Dot,
        TokenKind::At => Terminal::At,
        TokenKind::Hash => Terminal::Other,
    }
}
