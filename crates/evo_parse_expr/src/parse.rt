//! The parser of expressions.

ghost use Rattle.std.specs.Prelude.{◌≡◌, ◌-◌, ◌≤◌, ◌<◌, ◌^◌, ℕ, List, length, drop, IfOk, IfErr};
ghost use Rattle.evo_base.specs.declared.place.Place.{Place};
ghost use Rattle.evo_tree.specs.Pieces as spec;
ghost use Rattle.evo_parse_expr.specs.Contract.{IsReadTo, place_at};
ghost use Rattle.evo_parse_expr.specs.Fault.{IsFault, Places};
ghost use Rattle.evo_parse_expr.specs.declared.parse.ParseFault.TheVariants.{Memory};

use crate::cursor::Cursor;
use crate::expression::expr;
use crate::lexeme::{Lexeme, lexemes};
use evo_base::{Place, Token};
use evo_combinators::{Fault, ReadError};
use evo_lex::end_place;
use evo_tree::Expr;
use std::alloc::{AllocError, Global};

/// Why tokens are not read.
#[derive(Clone, Copy, PartialEq, Eq)]
pub enum ParseFault {
    /// A token, or the end of the text, with which no spelling goes on.
    Grammar { place: Place },
    /// A token that opens one nesting too many.
    Deep { place: Place },
    /// Memory ran out.
    Memory,
}

impl From<AllocError> for ParseFault {
    ghost use Rattle.std.specs.Prelude.{◌≡◌};
    ghost use Rattle.evo_parse_expr.specs.declared.parse.ParseFault.TheVariants.{Memory};

    ghost from_gives = { λ _ e. e ≡ Memory };

    fn from(_: AllocError) -> ParseFault {
        ParseFault::Memory
    }
}

// Where the token of this number stands, or the end of the text.
fn place_at(
    alloc: Global,
    text: &[u8],
    tokens: &[Token],
    number: usize,
) -> Result<Place, AllocError>
    requires { length text.now < 2 ^ 32 - 1 }
    ensures { IfOk result (λ place. place ≡ place_at text.now tokens.now number) }
{
    match tokens.get(number) {
        Some(token) => Ok(token.place),
        None => end_place(alloc, text),
    }
}

// The token before this one, if there is one.
fn token_before(tokens: &[Token], at: usize) -> Option<Token>
    requires { at ≤ length tokens.now }
    ensures { result ≡ spec.token_before at tokens.now }
{
    if at == 0 { None } else { Some(tokens[at - 1]) }
}

// The tokens from this number on, as the grammar sees them.
fn lexemes_from<'a>(
    alloc: Global,
    text: &'a [u8],
    tokens: &[Token],
    at: usize,
) -> Result<Vec<Lexeme<'a>>, AllocError>
    requires { at ≤ length tokens.now }
    ensures { IfOk result (λ v. v.items ≡ drop at (spec.pieces text.now tokens.now)) }
{
    lexemes(alloc, text, token_before(tokens, at), &tokens[at..])
}

/// The fault whose place is so many tokens before the end.
pub fn fault_of(
    alloc: Global,
    text: &[u8],
    tokens: &[Token],
    error: ReadError,
) -> Result<ParseFault, AllocError>
    requires { length text.now < 2 ^ 32 - 1 }
    ensures { IfOk result (Places text.now tokens.now error) }
{
    match error {
        ReadError::Memory => Ok(ParseFault::Memory),
        ReadError::Fault(Fault::Grammar(left)) => {
            let number = tokens.len().saturating_sub(left);
            let place = place_at(alloc, text, tokens, number)?;
            Ok(ParseFault::Grammar { place })
        }
        ReadError::Fault(Fault::Deep(left)) => {
            let number = tokens.len().saturating_sub(left);
            let place = place_at(alloc, text, tokens, number)?;
            Ok(ParseFault::Deep { place })
        }
    }
}

/// The expression at the front of the tokens from number `at` on, and the number of the first token behind it.
///
/// `opened` is the nesting that is open before it, which counts towards the limit of 64.
pub fn parse_expr(
    alloc: Global,
    text: &[u8],
    tokens: &[Token],
    at: u64,
    opened: u32,
) -> Result<(Expr, u64), ParseFault>
    requires length { length text.now < 2 ^ 32 - 1 }
    requires at { at ≤ length tokens.now }
    requires opened { opened ≤ 64 }
    ensures found { IfOk result (λ x. IsReadTo (64 - opened) (spec.pieces text.now tokens.now) at x.0 x.1) }
    ensures fault { IfErr result (IsFault (64 - opened) text.now tokens.now at) }
{
    let lexemes = lexemes_from(alloc, text, tokens, at as usize)?;
    let mut cursor = Cursor::new(&lexemes);
    match expr(alloc, &mut cursor, 64 - opened, true) {
        Ok(found) => Ok((found, (tokens.len() - cursor.left()) as u64)),
        Err(error) => Err(fault_of(alloc, text, tokens, error)?),
    }
}
