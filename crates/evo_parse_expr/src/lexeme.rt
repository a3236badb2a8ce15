//! Tokens as the grammar sees them.

ghost use Rattle.std.specs.Prelude.{◌≡◌, ◌≤◌, ◌^◌, List, ℕ, IfOk, take, drop};
ghost use Rattle.evo_tree.specs.Pieces as spec;
ghost use Rattle.std.specs.Str.{is_utf8};
ghost use Rattle.evo_combinators.specs.Laws.{first};
ghost use Rattle.evo_lex.specs.Front.{when};
ghost use Rattle.evo_tree.specs.Types as types;
ghost use Rattle.evo_tree.specs.Expressions.{infix_by};
ghost use Rattle.evo_parse_expr.specs.Levels.{operators_of};

use crate::sides::{is_below, role_of};
use crate::terminal::{number, terminal_of};
use evo_base::{Name, Place, Token};
use evo_lex::{integer_value, string_value};
use evo_tree::{Identifier, InfixOperator, PrefixOperator, Role, Terminal};
use std::alloc::{AllocError, Global};
use std::marker::Model;

/// A token, and what the white space beside it makes of it.
#[derive(Drop)]
pub struct Lexeme<'a> {
    terminal: Terminal,
    role: Role,
    /// It stands on a later line than the token before it.
    below: bool,
    place: Place,
    text: &'a [u8],
}

impl<'a> Model for Lexeme<'a> {
    ghost use Rattle.evo_tree.specs.Pieces.{Piece};

    ghost Value = { Piece };

    ghost view = { λ l. record { terminal = l.terminal; role = l.role; below = l.below; place = l.place; text = l.text.now } };
}

/// The levels of operators, the loosest first.
#[derive(Clone, Copy)]
pub enum Level {
    /// `||`
    Disjunction,
    /// `&&`
    Conjunction,
    /// `==`, `<` and the like, which do not chain.
    Comparison,
    /// `+`, `-` and the like.
    Addition,
    /// `*`, `/` and the like.
    Multiplication,
}

fn multiplying(terminal: Terminal) -> Option<InfixOperator>
    ensures { result ≡ operators_of Level.Multiplication terminal }
{
    match terminal {
        Terminal::Star => Some(InfixOperator::Multiply),
        Terminal::Slash => Some(InfixOperator::Divide),
        Terminal::Percent => Some(InfixOperator::Remainder),
        Terminal::WrappingStar => Some(InfixOperator::WrappingMultiply),
        _ => None,
    }
}

fn adding(terminal: Terminal) -> Option<InfixOperator>
    ensures { result ≡ operators_of Level.Addition terminal }
{
    match terminal {
        Terminal::Plus => Some(InfixOperator::Add),
        Terminal::Minus => Some(InfixOperator::Subtract),
        Terminal::WrappingPlus => Some(InfixOperator::WrappingAdd),
        Terminal::WrappingMinus => Some(InfixOperator::WrappingSubtract),
        _ => None,
    }
}

fn comparing(terminal: Terminal) -> Option<InfixOperator>
    ensures { result ≡ operators_of Level.Comparison terminal }
{
    match terminal {
        Terminal::EqualEqual => Some(InfixOperator::Equal),
        Terminal::NotEqual => Some(InfixOperator::NotEqual),
        Terminal::Less => Some(InfixOperator::Less),
        Terminal::LessEqual => Some(InfixOperator::LessOrEqual),
        Terminal::Greater => Some(InfixOperator::Greater),
        Terminal::GreaterEqual => Some(InfixOperator::GreaterOrEqual),
        Terminal::Identical => Some(InfixOperator::Identical),
        Terminal::NotIdentical => Some(InfixOperator::NotIdentical),
        _ => None,
    }
}

fn operator(level: Level, terminal: Terminal) -> Option<InfixOperator>
    ensures { result ≡ operators_of level terminal }
{
    match level {
        Level::Disjunction => match terminal {
            Terminal::OrOr => Some(InfixOperator::Or),
            _ => None,
        },
        Level::Conjunction => match terminal {
            Terminal::AndAnd => Some(InfixOperator::And),
            _ => None,
        },
        Level::Comparison => comparing(terminal),
        Level::Addition => adding(terminal),
        Level::Multiplication => multiplying(terminal),
    }
}

fn role_number(role: Role) -> u8
    ensures { result ≡ spec.role_number role }
{
    role as u8
}

fn sign_of(terminal: Terminal) -> Option<PrefixOperator>
    ensures { result ≡ spec.sign_of terminal }
{
    match terminal {
        Terminal::Minus => Some(PrefixOperator::Minus),
        Terminal::Not => Some(PrefixOperator::Not),
        _ => None,
    }
}

// The text of a token, as far as the whole text goes.
fn part(text: &[u8], start: usize, len: usize) -> &[u8]
    ensures { result.now ≡ take len (drop start text.now) }
{
    let rest = &text[start.min(text.len())..];
    &rest[..len.min(rest.len())]
}

fn is_text(text: &[u8]) -> bool
    ensures { result ≡ is_utf8 text.now }
{
    match str::from_utf8(text) {
        Ok(_) => true,
        Err(_) => false,
    }
}

// The name that these bytes spell, where they are UTF-8.
fn name_of(alloc: Global, text: &[u8]) -> Result<Option<Name>, AllocError>
    ensures { IfOk result (λ found. found ≡ when (is_utf8 text.now) text.now) }
{
    match str::from_utf8(text) {
        Ok(_) => Ok(Some(Name::from_vec(text.to_vec(alloc)?))),
        Err(_) => Ok(None),
    }
}

impl<'a> Lexeme<'a> {
    /// A token of a text, by those before and behind it.
    pub fn new(
        text: &'a [u8],
        before: Option<Token>,
        token: &Token,
        behind: Option<Token>,
    ) -> Lexeme<'a>
        ensures { result ≡ spec.piece text.now before token.now behind }
    {
        let own = part(text, token.start as usize, token.len as usize);
        let terminal = terminal_of(token.kind, own);
        Lexeme {
            terminal,
            role: role_of(terminal, before, token, behind),
            below: is_below(before, token),
            place: token.place,
            text: own,
        }
    }

    /// Where it stands.
    pub fn place(&self) -> Place
        ensures { result ≡ self.now.place }
    {
        self.place
    }

    /// Whether it stands on a later line than the token before it.
    pub fn below(&self) -> bool
        ensures { result ≡ self.now.below }
    {
        self.below
    }

    /// What it is in the grammar.
    pub fn terminal(&self) -> Terminal
        ensures { result ≡ self.now.terminal }
    {
        self.terminal
    }

    /// Whether it is this terminal.
    pub fn is(&self, terminal: Terminal) -> bool
        ensures { result ≡ spec.is_terminal terminal self.now }
    {
        number(self.terminal) == number(terminal)
    }

    /// Whether the white space beside it makes this of it.
    pub fn has_role(&self, role: Role) -> bool
        ensures { result ≡ spec.has_role role self.now }
    {
        role_number(self.role) == role_number(role)
    }

    /// Whether it is an identifier.
    pub fn is_identifier(&self) -> bool
        ensures { result ≡ spec.is_identifier self.now }
    {
        self.is(Terminal::Identifier) && is_text(self.text)
    }

    /// Whether it is an identifier of this very text.
    pub fn is_word(&self, word: &[u8]) -> bool
        ensures { result ≡ spec.is_word word.now self.now }
    {
        self.is(Terminal::Identifier) && self.text == word
    }

    /// This terminal.
    #[tactic(auto, unfolding(evo_tree::specs::Pieces::mark))]
    pub fn mark(&self, terminal: Terminal) -> Option<Place>
        ensures { result ≡ spec.mark terminal self.now }
    {
        if self.is(terminal) {
            Some(self.place)
        } else {
            None
        }
    }

    /// An identifier of this very text.
    #[tactic(auto, unfolding(evo_tree::specs::Pieces::word))]
    pub fn word(&self, word: &[u8]) -> Option<Place>
        ensures { result ≡ spec.word word.now self.now }
    {
        if self.is_word(word) {
            Some(self.place)
        } else {
            None
        }
    }

    /// An identifier.
    #[tactic(auto, unfolding(evo_tree::specs::Pieces::identifier))]
    pub fn identifier(&self, alloc: Global) -> Result<Option<Identifier>, AllocError>
        ensures { IfOk result (λ found. found ≡ spec.identifier self.now) }
    {
        if !self.is(Terminal::Identifier) {
            return Ok(None);
        }
        match name_of(alloc, self.text)? {
            Some(text) => Ok(Some(Identifier {
                place: self.place,
                text,
            })),
            None => Ok(None),
        }
    }

    /// A name, of which only the text is kept.
    #[tactic(auto, unfolding(evo_tree::specs::Types::plain_name))]
    pub fn plain_name(&self, alloc: Global) -> Result<Option<Name>, AllocError>
        ensures { IfOk result (λ found. found ≡ types.plain_name self.now) }
    {
        if self.is(Terminal::Identifier) {
            name_of(alloc, self.text)
        } else {
            Ok(None)
        }
    }

    /// A name or `Self`.
    #[tactic(auto, unfolding(evo_tree::specs::Types::type_head))]
    pub fn type_head(&self, alloc: Global) -> Result<Option<(Place, Name)>, AllocError>
        ensures { IfOk result (λ found. found ≡ types.type_head self.now) }
    {
        if !(self.is(Terminal::Identifier) || self.is(Terminal::SelfType)) {
            return Ok(None);
        }
        match name_of(alloc, self.text)? {
            Some(text) => Ok(Some((self.place, text))),
            None => Ok(None),
        }
    }

    /// An integer of at most this value, which is itself at most 2^63.
    #[tactic(auto, unfolding(evo_tree::specs::Pieces::integer))]
    pub fn integer(&self, most: u64) -> Option<(Place, u64)>
        requires { most ≤ 2 ^ 63 }
        ensures { result ≡ spec.integer most self.now }
    {
        if !self.is(Terminal::Integer) {
            return None;
        }
        match integer_value(self.text) {
            Some(value) if value <= most => Some((self.place, value)),
            _ => None,
        }
    }

    /// A string, with its characters.
    #[tactic(auto, unfolding(evo_tree::specs::Pieces::string))]
    pub fn string(&self, alloc: Global) -> Result<Option<(Place, Name)>, AllocError>
        ensures { IfOk result (λ found. found ≡ spec.string self.now) }
    {
        if !self.is(Terminal::String) {
            return Ok(None);
        }
        let value = string_value(alloc, self.text)?;
        match name_of(alloc, &value)? {
            Some(text) => Ok(Some((self.place, text))),
            None => Ok(None),
        }
    }

    /// `-` directly before an integer.
    #[tactic(auto, unfolding(evo_tree::specs::Pieces::negative))]
    pub fn negative(&self) -> Option<Place>
        ensures { result ≡ spec.negative self.now }
    {
        if self.is(Terminal::Minus) && self.has_role(Role::Negative) {
            Some(self.place)
        } else {
            None
        }
    }

    /// An operator before its operand.
    #[tactic(auto, unfolding(evo_tree::specs::Pieces::sign))]
    pub fn sign(&self) -> Option<(Place, PrefixOperator)>
        ensures { result ≡ spec.sign self.now }
    {
        if !self.has_role(Role::Prefix) {
            return None;
        }
        match sign_of(self.terminal) {
            Some(operator) => Some((self.place, operator)),
            None => None,
        }
    }

    /// An operator of a level between operands.
    #[tactic(auto, unfolding(evo_tree::specs::Expressions::infix_by))]
    pub fn infix(&self, level: Level) -> Option<InfixOperator>
        ensures { result ≡ infix_by (operators_of level) self.now }
    {
        if self.has_role(Role::Infix) {
            operator(level, self.terminal)
        } else {
            None
        }
    }

    /// `(` on the line of the token before it.
    #[tactic(auto, unfolding(evo_tree::specs::Pieces::call))]
    pub fn call(&self) -> Option<Place>
        ensures { result ≡ spec.call self.now }
    {
        if self.is(Terminal::OpenParenthesis) && !self.below {
            Some(self.place)
        } else {
            None
        }
    }
}

fn first_token(tokens: &[Token]) -> Option<Token>
    ensures { result ≡ first tokens.now }
{
    match tokens.split_first() {
        Some((token, _)) => Some(*token),
        None => None,
    }
}

/// The tokens of a text behind one of them, as the grammar sees them.
pub fn lexemes<'a>(
    alloc: Global,
    text: &'a [u8],
    before: Option<Token>,
    tokens: &[Token],
) -> Result<Vec<Lexeme<'a>>, AllocError>
    ensures { IfOk result (λ v. v.items ≡ spec.pieces_from text.now before tokens.now) }
{
    let mut found = Vec::new(alloc);
    let mut last = before;
    for (i, token) in tokens.iter().enumerate() {
        let behind = first_token(&tokens[i + 1..]);
        found.push(Lexeme::new(text, last, token, behind))?;
        last = Some(*token);
    }
    Ok(found)
}
