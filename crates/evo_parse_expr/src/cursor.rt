//! A place among the tokens of a text.

ghost use Rattle.std.specs.Prelude.{◌≡◌, ◌≤◌, ◌^◌, ◌∷◌, [], ℕ, List, length, IfOk, MatchOption};
ghost use Rattle.evo_combinators.specs.Guard.{starts, starts_two};
ghost use Rattle.evo_combinators.specs.Reader.{lead, one, Eats, Reads};
ghost use Rattle.evo_tree.specs.Pieces as spec;
ghost use Rattle.evo_tree.specs.Types as types;
ghost use Rattle.evo_tree.specs.Expressions.{infix_by};
ghost use Rattle.evo_parse_expr.specs.Levels.{operators_of};

use crate::lexeme::{Level, Lexeme};
use evo_base::{Name, Place};
use evo_combinators::{Fault, ReadError};
use evo_tree::{Identifier, InfixOperator, PrefixOperator, Terminal};
use std::alloc::{AllocError, Global};
use std::marker::Model;

/// The tokens that are left. Contracts see it as their list.
#[derive(Drop)]
pub struct Cursor<'a> {
    rest: &'a [Lexeme<'a>],
}

impl<'a> Model for Cursor<'a> {
    ghost use Rattle.std.specs.Prelude.{List};
    ghost use Rattle.evo_tree.specs.Pieces.{Piece};

    ghost Value = { List Piece };

    ghost view = { λ c. c.rest.now };
}

impl<'a> Cursor<'a> {
    pub fn new(tokens: &'a [Lexeme<'a>]) -> Cursor<'a>
        ensures { result ≡ tokens.now }
    {
        Cursor { rest: tokens }
    }

    /// The same place.
    pub fn copy(&self) -> Cursor<'a>
        ensures { result ≡ self.now }
    {
        Cursor { rest: self.rest }
    }

    /// How many tokens are left.
    pub fn left(&self) -> usize
        ensures { result ≡ length self.now }
    {
        self.rest.len()
    }

    /// The first token, and the place behind it.
    pub fn next(&self) -> Option<(&'a Lexeme<'a>, Cursor<'a>)>
        ensures { MatchOption result (self.now ≡ []) (λ x. self.now ≡ x.0.now ∷ x.1) }
    {
        let (token, rest) = self.rest.split_first()?;
        Some((token, Cursor { rest }))
    }

    /// The fault that the first token is refused.
    pub fn refused(&self) -> ReadError
        ensures { result ≡ ReadError.Fault (Fault.Grammar (length self.now)) }
    {
        ReadError::Fault(Fault::Grammar(self.left()))
    }

    /// Whether the first token is this terminal.
    #[tactic(auto, unfolding(evo_combinators::specs::Guard::starts))]
    pub fn starts(&self, terminal: Terminal) -> bool
        ensures { result ≡ starts (spec.is_terminal terminal) self.now }
    {
        match self.next() {
            Some((token, _)) => token.is(terminal),
            None => false,
        }
    }

    /// Whether an identifier and this terminal come first.
    #[tactic(auto, unfolding(evo_combinators::specs::Guard::starts, evo_combinators::specs::Guard::starts_two))]
    pub fn starts_named(&self, terminal: Terminal) -> bool
        ensures { result ≡ starts_two spec.is_identifier (spec.is_terminal terminal) self.now }
    {
        match self.next() {
            Some((token, rest)) => token.is_identifier() && rest.starts(terminal),
            None => false,
        }
    }

    /// Takes this terminal.
    #[tactic(auto, unfolding(evo_combinators::specs::Reader::lead))]
    pub fn mark(&mut self, terminal: Terminal) -> Option<Place>
        ensures { Eats (lead (spec.mark terminal) self.old) result self.old self.new }
    {
        let (first, rest) = self.next()?;
        let found = first.mark(terminal)?;
        *self = rest;
        Some(found)
    }

    /// Takes an identifier of this very text.
    #[tactic(auto, unfolding(evo_combinators::specs::Reader::lead))]
    pub fn word(&mut self, word: &[u8]) -> Option<Place>
        ensures { Eats (lead (spec.word word.now) self.old) result self.old self.new }
    {
        let (first, rest) = self.next()?;
        let found = first.word(word)?;
        *self = rest;
        Some(found)
    }

    /// Takes `(` on the line of the token before it.
    #[tactic(auto, unfolding(evo_combinators::specs::Reader::lead))]
    pub fn call(&mut self) -> Option<Place>
        ensures { Eats (lead spec.call self.old) result self.old self.new }
    {
        let (first, rest) = self.next()?;
        let found = first.call()?;
        *self = rest;
        Some(found)
    }

    /// Takes an operator before its operand.
    #[tactic(auto, unfolding(evo_combinators::specs::Reader::lead))]
    pub fn sign(&mut self) -> Option<(Place, PrefixOperator)>
        ensures { Eats (lead spec.sign self.old) result self.old self.new }
    {
        let (first, rest) = self.next()?;
        let found = first.sign()?;
        *self = rest;
        Some(found)
    }

    /// Takes `-` directly before an integer.
    #[tactic(auto, unfolding(evo_combinators::specs::Reader::lead))]
    pub fn negative(&mut self) -> Option<Place>
        ensures { Eats (lead spec.negative self.old) result self.old self.new }
    {
        let (first, rest) = self.next()?;
        let found = first.negative()?;
        *self = rest;
        Some(found)
    }

    /// Takes an operator of a level between operands.
    #[tactic(auto, unfolding(evo_combinators::specs::Reader::lead))]
    pub fn infix(&mut self, level: Level) -> Option<InfixOperator>
        ensures { Eats (lead (infix_by (operators_of level)) self.old) result self.old self.new }
    {
        let (first, rest) = self.next()?;
        let found = first.infix(level)?;
        *self = rest;
        Some(found)
    }

    /// Takes an integer of at most this value, which is itself at most 2^63.
    #[tactic(auto, unfolding(evo_combinators::specs::Reader::lead))]
    pub fn integer(&mut self, most: u64) -> Option<(Place, u64)>
        requires { most ≤ 2 ^ 63 }
        ensures { Eats (lead (spec.integer most) self.old) result self.old self.new }
    {
        let (first, rest) = self.next()?;
        let found = first.integer(most)?;
        *self = rest;
        Some(found)
    }

    /// Takes an identifier.
    #[tactic(auto, unfolding(evo_combinators::specs::Reader::lead))]
    pub fn identifier(&mut self, alloc: Global) -> Result<Option<Identifier>, AllocError>
        ensures { IfOk result (λ found. Eats (lead spec.identifier self.old) found self.old self.new) }
    {
        let Some((first, rest)) = self.next() else {
            return Ok(None);
        };
        match first.identifier(alloc)? {
            Some(found) => {
                *self = rest;
                Ok(Some(found))
            }
            None => Ok(None),
        }
    }

    /// Takes a name, of which only the text is kept.
    #[tactic(auto, unfolding(evo_combinators::specs::Reader::lead))]
    pub fn plain_name(&mut self, alloc: Global) -> Result<Option<Name>, AllocError>
        ensures { IfOk result (λ found. Eats (lead types.plain_name self.old) found self.old self.new) }
    {
        let Some((first, rest)) = self.next() else {
            return Ok(None);
        };
        match first.plain_name(alloc)? {
            Some(found) => {
                *self = rest;
                Ok(Some(found))
            }
            None => Ok(None),
        }
    }

    /// Takes a name or `Self`.
    #[tactic(auto, unfolding(evo_combinators::specs::Reader::lead))]
    pub fn type_head(&mut self, alloc: Global) -> Result<Option<(Place, Name)>, AllocError>
        ensures { IfOk result (λ found. Eats (lead types.type_head self.old) found self.old self.new) }
    {
        let Some((first, rest)) = self.next() else {
            return Ok(None);
        };
        match first.type_head(alloc)? {
            Some(found) => {
                *self = rest;
                Ok(Some(found))
            }
            None => Ok(None),
        }
    }

    /// Takes a string.
    #[tactic(auto, unfolding(evo_combinators::specs::Reader::lead))]
    pub fn string(&mut self, alloc: Global) -> Result<Option<(Place, Name)>, AllocError>
        ensures { IfOk result (λ found. Eats (lead spec.string self.old) found self.old self.new) }
    {
        let Some((first, rest)) = self.next() else {
            return Ok(None);
        };
        match first.string(alloc)? {
            Some(found) => {
                *self = rest;
                Ok(Some(found))
            }
            None => Ok(None),
        }
    }

    /// Takes this terminal, or refuses the first token.
    pub fn expect_mark(&mut self, terminal: Terminal) -> Result<Place, ReadError>
        ensures { Reads (one (spec.mark terminal) self.old) result self.new }
    {
        match self.mark(terminal) {
            Some(place) => Ok(place),
            None => Err(self.refused()),
        }
    }

    /// Takes an identifier of this very text, or refuses the first token.
    pub fn expect_word(&mut self, word: &[u8]) -> Result<Place, ReadError>
        ensures { Reads (one (spec.word word.now) self.old) result self.new }
    {
        match self.word(word) {
            Some(place) => Ok(place),
            None => Err(self.refused()),
        }
    }

    /// Takes an integer of at most this value, or refuses the first token.
    pub fn expect_integer(&mut self, most: u64) -> Result<(Place, u64), ReadError>
        requires { most ≤ 2 ^ 63 }
        ensures { Reads (one (spec.integer most) self.old) result self.new }
    {
        match self.integer(most) {
            Some(found) => Ok(found),
            None => Err(self.refused()),
        }
    }

    /// Takes an identifier, or refuses the first token.
    pub fn expect_identifier(&mut self, alloc: Global) -> Result<Identifier, ReadError>
        ensures { Reads (one spec.identifier self.old) result self.new }
    {
        match self.identifier(alloc)? {
            Some(found) => Ok(found),
            None => Err(self.refused()),
        }
    }

    /// Takes a name, of which only the text is kept, or refuses the first token.
    pub fn expect_plain_name(&mut self, alloc: Global) -> Result<Name, ReadError>
        ensures { Reads (one types.plain_name self.old) result self.new }
    {
        match self.plain_name(alloc)? {
            Some(found) => Ok(found),
            None => Err(self.refused()),
        }
    }

    /// Takes a name or `Self`, or refuses the first token.
    pub fn expect_type_head(&mut self, alloc: Global) -> Result<(Place, Name), ReadError>
        ensures { Reads (one types.type_head self.old) result self.new }
    {
        match self.type_head(alloc)? {
            Some(found) => Ok(found),
            None => Err(self.refused()),
        }
    }
}
