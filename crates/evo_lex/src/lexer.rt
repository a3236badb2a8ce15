//! Cuts a text.

ghost use Rattle.std.specs.Prelude.{◌≡◌, ◌<◌, ◌≤◌, ◌^◌, ◌-◌, ◌++◌, List, length, IfOk, IfErr, MatchBool};
ghost use Rattle.std.specs.Str.{chars, IsUtf8};
ghost use Rattle.evo_base.specs.declared.fault_kind.FaultKind.TheVariants.{BadToken};
ghost use Rattle.evo_lex.specs.Tokenization as spec;
ghost use Rattle.evo_lex.specs.Tokenization.{Tokenization, CutFrom, BadFrom, IsFault};
ghost use Rattle.evo_lex.specs.Fault.{OnBad};
ghost use Rattle.evo_lex.specs.declared.lexer.LexFault.TheVariants.{Memory};

use crate::front::{Front, read_front};
use crate::spot::{Position, beyond};
use evo_base::{FaultKind, Place, Token};
use std::alloc::{AllocError, AllocFailed, Global};

/// Why there are no tokens.
#[derive(Clone, Copy, Debug, PartialEq, Eq)]
pub enum LexFault {
    /// The text is no sequence of tokens and white space.
    Bad {
        /// `NotUtf8` or `BadToken`.
        kind: FaultKind,
        /// Where the first fault stands.
        place: Place,
    },
    /// Memory ran out.
    Memory,
}

impl From<AllocError> for LexFault {
    ghost from_gives = { λ _ e. e ≡ Memory };

    fn from(_: AllocError) -> Self {
        LexFault::Memory
    }
}

impl<T: Drop> From<AllocFailed<T>> for LexFault {
    ghost from_gives = { λ _ e. e ≡ Memory };

    fn from(_: AllocFailed<T>) -> Self {
        LexFault::Memory
    }
}

// The longest front of a text that is UTF-8, and whether it is the whole text.
fn decoded(text: &[u8]) -> (&str, bool)
    ensures front { chars result.0.now ≡ spec.front_chars text.now }
    ensures whole { MatchBool result.1 (IsUtf8 text.now) (IsUtf8 text.now → ⊥) }
    ensures within { length result.0.now ≤ length text.now }
{
    match str::from_utf8(text) {
        Ok(front) => (front, true),
        Err(fault) => match str::from_utf8(&text[..fault.valid_up_to()]) {
            Ok(front) => (front, false),
            Err(_) => unreachable!(),
        },
    }
}

fn characters(alloc: Global, text: &str) -> Result<Vec<char>, LexFault>
    ensures characters { IfOk result (λ v. v.items ≡ chars text.now) }
    ensures room { IfOk result (λ v. (spec.beyond v.items spec.origin).at ≤ length text.now) }
    ensures fault { IfErr result (λ e. e ≡ Memory) }
{
    Ok(text.chars().collect(alloc)?)
}

// Keeps the front between two spots where it is a token.
fn keep(tokens: &mut Vec<Token>, front: Front, from: Position, to: Position) -> Result<(), LexFault>
    requires { from.at ≤ to.at }
    ensures kept { IfOk result (λ _. tokens.new.items ≡ tokens.old.items ++ spec.tokens_of front from to) }
    ensures fault { IfErr result (λ e. e ≡ Memory) }
{
    if let Front::Token(kind) = front {
        tokens.push(Token {
            kind,
            place: from.place,
            start: from.at,
            len: to.at - from.at,
        })?;
    }
    Ok(())
}

// The tokens that some characters are, and the spot behind them.
fn cut(alloc: Global, text: &[char]) -> Result<(Vec<Token>, Position), LexFault>
    requires { (spec.beyond text.now spec.origin).at < 2 ^ 32 - 1 }
    ensures found { IfOk result (λ r. CutFrom spec.origin text.now r.0.items × (r.1 ≡ spec.beyond text.now spec.origin)) }
    ensures bad { IfErr result (λ e. OnBad e (λ kind place. (kind ≡ BadToken) × BadFrom spec.origin text.now place)) }
{
    let mut tokens = Vec::new(alloc);
    let mut spot = Position::origin();
    let mut read = 0;
    while read < text.len() {
        let Some((found, len)) = read_front(&text[read..]) else {
            return Err(LexFault::Bad {
                kind: FaultKind::BadToken,
                place: spot.place,
            });
        };
        let next = beyond(&text[read..read + len], spot);
        keep(&mut tokens, found, spot, next)?;
        spot = next;
        read += len;
    }
    Ok((tokens, spot))
}

/// The tokens of a text, in order, each with its place, its index and its length in bytes.
pub fn lex(alloc: Global, text: &[u8]) -> Result<Vec<Token>, LexFault>
    requires { length text.now < 2 ^ 32 - 1 }
    // The text is these tokens.
    ensures found { IfOk result (λ v. Tokenization text.now v.items) }
    // The text is no tokens, and this is its first fault.
    ensures bad { IfErr result (λ e. OnBad e (IsFault text.now)) }
{
    let (front, whole) = decoded(text);
    let characters = characters(alloc, front)?;
    let (tokens, end) = cut(alloc, &characters)?;
    if whole {
        Ok(tokens)
    } else {
        Err(LexFault::Bad {
            kind: FaultKind::NotUtf8,
            place: end.place,
        })
    }
}

/// The place behind the last character of a text, or of its longest front that is UTF-8.
pub fn end_place(alloc: Global, text: &[u8]) -> Result<Place, AllocError>
    requires { length text.now < 2 ^ 32 - 1 }
    ensures { IfOk result (λ place. place ≡ spec.end_of text.now) }
{
    let (front, _) = decoded(text);
    match characters(alloc, front) {
        Ok(characters) => Ok(beyond(&characters, Position::origin()).place),
        Err(_) => Err(AllocError),
    }
}
