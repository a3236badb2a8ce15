//! Cases, and the payloads that they carry.

ghost use Rattle.std.specs.Prelude.{◌≡◌, ◌∷◌, ℕ, List};
ghost use Rattle.evo_combinators.specs.Reader.{Reads};
ghost use Rattle.evo_parse_header.specs.Read as spec;

use crate::parts::{Part, further, separated};
use evo_base::{List, Place};
use evo_combinators::ReadError;
use evo_parse_expr::{Cursor, too_deep, type_name};
use evo_tree::{DeclKind, Identifier, Payload, Terminal, TypeName};
use std::alloc::Global;

// A payload behind its first name, which is a label or begins its type.
#[tactic(auto, unfolding(crate::specs::Read::rest_of_payload))]
fn rest_of_payload(
    alloc: Global,
    tokens: &mut Cursor<'_>,
    first: Identifier,
) -> Result<Payload, ReadError>
    ensures { Reads (spec.rest_of_payload first tokens.old) result tokens.new }
{
    if let Some(_) = tokens.mark(Terminal::Colon) {
        let type_name = type_name(alloc, tokens)?;
        return Ok(Payload {
            label: Some(first),
            type_name,
        });
    }
    let Identifier { place, text } = first;
    let names = further(alloc, text, tokens, 0, Terminal::Dot)?;
    Ok(Payload {
        label: None,
        type_name: TypeName { place, names },
    })
}

#[tactic(auto, unfolding(crate::specs::Read::payload_of))]
fn payload(alloc: Global, tokens: &mut Cursor<'_>) -> Result<Payload, ReadError>
    ensures { Reads (spec.payload_of tokens.old) result tokens.new }
{
    if let Some(first) = tokens.identifier(alloc)? {
        return rest_of_payload(alloc, tokens, first);
    }
    let type_name = type_name(alloc, tokens)?;
    Ok(Payload {
        label: None,
        type_name,
    })
}

impl Part for Payload {
    ghost reader = { λ d. spec.payload_of };

    fn part(alloc: Global, tokens: &mut Cursor<'_>, _depth: u32) -> Result<Payload, ReadError> {
        payload(alloc, tokens)
    }
}

#[tactic(auto, unfolding(crate::specs::Read::rest_of_payloads))]
fn rest_of_payloads(alloc: Global, tokens: &mut Cursor<'_>) -> Result<List<Payload>, ReadError>
    ensures { Reads (spec.rest_of_payloads tokens.old) result tokens.new }
{
    let found = separated(alloc, tokens, 0, Terminal::Comma)?;
    tokens.expect_mark(Terminal::CloseParenthesis)?;
    Ok(found)
}

#[tactic(auto, unfolding(crate::specs::Read::payloads))]
fn payloads(alloc: Global, tokens: &mut Cursor<'_>, depth: u32) -> Result<List<Payload>, ReadError>
    ensures { Reads (spec.payloads depth tokens.old) result tokens.new }
{
    let left = tokens.left();
    let Some(_) = tokens.mark(Terminal::OpenParenthesis) else {
        return Ok(List::from_vec(Vec::new(alloc)));
    };
    if depth == 0 {
        return Err(too_deep(left));
    }
    rest_of_payloads(alloc, tokens)
}

#[tactic(auto, unfolding(crate::specs::Read::case_of))]
fn case(alloc: Global, tokens: &mut Cursor<'_>, depth: u32) -> Result<DeclKind, ReadError>
    ensures { Reads (spec.case_of depth tokens.old) result tokens.new }
{
    let name = tokens.expect_identifier(alloc)?;
    let payloads = payloads(alloc, tokens, depth)?;
    Ok(DeclKind::Case(name, payloads))
}

// A case behind a mark.
impl Part for DeclKind {
    ghost reader = { spec.case_of };

    fn part(alloc: Global, tokens: &mut Cursor<'_>, depth: u32) -> Result<DeclKind, ReadError> {
        case(alloc, tokens, depth)
    }
}

/// The cases behind `case`, with the place of that word.
#[tactic(auto, unfolding(crate::specs::Read::rest_of_cases, crate::specs::Read::separated))]
pub fn rest_of_cases(
    alloc: Global,
    tokens: &mut Cursor<'_>,
    depth: u32,
    place: Place,
) -> Result<(Place, List<DeclKind>), ReadError>
    ensures { Reads (spec.rest_of_cases depth place tokens.old) result tokens.new }
{
    let first = case(alloc, tokens, depth)?;
    let cases = further(alloc, first, tokens, depth, Terminal::Comma)?;
    Ok((place, cases))
}
