//! The tests of the first tokens that statements have for themselves.

ghost use Rattle.std.specs.Prelude.{◌≡◌, ℕ, List};
ghost use Rattle.evo_combinators.specs.Guard.{ahead, starts_two};
ghost use Rattle.evo_combinators.specs.Three.{starts_three};
ghost use Rattle.evo_combinators.specs.Reader.{lead, Eats, Reads};
ghost use Rattle.evo_tree.specs.Pieces.{is_terminal};
ghost use Rattle.evo_tree.specs.declared.terminal.Terminal.TheVariants.{Dot, Init};
ghost use Rattle.evo_tree.specs.declared.expression.Expr.{out-Expr};
ghost use Rattle.evo_tree.specs.Statements as spec;

use evo_base::Place;
use evo_combinators::ReadError;
use evo_parse_expr::Cursor;
use evo_tree::{AssignmentOperator, Expr, Introducer, Role, Terminal};

fn introduced(terminal: Terminal) -> Option<Introducer>
    ensures { result ≡ spec.introduced terminal }
{
    match terminal {
        Terminal::Let => Some(Introducer::Let),
        Terminal::Var => Some(Introducer::Var),
        _ => None,
    }
}

fn assigning(terminal: Terminal) -> Option<AssignmentOperator>
    ensures { result ≡ spec.assigning terminal }
{
    match terminal {
        Terminal::Equal => Some(AssignmentOperator::Assign),
        Terminal::PlusEqual => Some(AssignmentOperator::Add),
        Terminal::MinusEqual => Some(AssignmentOperator::Subtract),
        Terminal::StarEqual => Some(AssignmentOperator::Multiply),
        Terminal::SlashEqual => Some(AssignmentOperator::Divide),
        Terminal::PercentEqual => Some(AssignmentOperator::Remainder),
        _ => None,
    }
}

/// Takes `let` or `var`.
#[tactic(auto, unfolding(evo_combinators::specs::Reader::lead, evo_tree::specs::Statements::introduces))]
pub fn introducer(tokens: &mut Cursor<'_>) -> Option<(Place, Introducer)>
    ensures { Eats (lead spec.introduces tokens.old) result tokens.old tokens.new }
{
    let (first, rest) = tokens.next()?;
    let kind = introduced(first.terminal())?;
    let place = first.place();
    *tokens = rest;
    Some((place, kind))
}

/// Takes `-` directly before what it belongs to.
#[tactic(auto, unfolding(evo_combinators::specs::Reader::lead, evo_tree::specs::Statements::attached_minus))]
pub fn attached_minus(tokens: &mut Cursor<'_>) -> Option<Place>
    ensures { Eats (lead spec.attached_minus tokens.old) result tokens.old tokens.new }
{
    let (first, rest) = tokens.next()?;
    if !first.is(Terminal::Minus) {
        return None;
    }
    if !(first.has_role(Role::Negative) || first.has_role(Role::Prefix)) {
        return None;
    }
    let place = first.place();
    *tokens = rest;
    Some(place)
}

// Whether it is no negative literal.
fn is_positive(value: &Expr) -> bool
    ensures { result ≡ spec.is_positive_level (out-Expr value.now) }
{
    match value {
        Expr::Negative(_, _) => false,
        _ => true,
    }
}

// Whether it may be assigned to.
#[tactic(auto, unfolding(evo_tree::specs::Statements::is_target))]
fn is_target(target: &Expr) -> bool
    ensures { result ≡ spec.is_target target.now }
{
    match target {
        Expr::Negative(_, _) => false,
        Expr::Prefix(_, _, _) => false,
        Expr::Chain(_, _) => false,
        Expr::Members(first, _) => is_positive(first.get()),
        _ => true,
    }
}

/// Takes an operator that assigns, behind what may be assigned to.
#[tactic(auto, unfolding(evo_combinators::specs::Reader::lead, evo_tree::specs::Statements::assigns_to, evo_tree::specs::Statements::assigns))]
pub fn operator(tokens: &mut Cursor<'_>, target: &Expr) -> Option<AssignmentOperator>
    ensures { Eats (lead (spec.assigns_to target.now) tokens.old) result tokens.old tokens.new }
{
    let (first, rest) = tokens.next()?;
    if !is_target(target) {
        return None;
    }
    if !(first.is(Terminal::Equal) || first.has_role(Role::Infix)) {
        return None;
    }
    let found = assigning(first.terminal())?;
    *tokens = rest;
    Some(found)
}

/// Refuses the first token unless it stands on the line of the token before it.
#[tactic(auto, unfolding(evo_combinators::specs::Guard::ahead, evo_combinators::specs::Guard::starts, evo_tree::specs::Statements::is_here))]
pub fn expect_here(tokens: &Cursor<'_>) -> Result<(), ReadError>
    ensures { Reads (ahead spec.is_here tokens.now) result tokens.now }
{
    match tokens.next() {
        Some((first, _)) if !first.below() => Ok(()),
        _ => Err(tokens.refused()),
    }
}

/// Refuses the first token unless it stands on a later line.
#[tactic(auto, unfolding(evo_combinators::specs::Guard::ahead, evo_combinators::specs::Guard::starts, evo_tree::specs::Statements::is_below))]
pub fn expect_below(tokens: &Cursor<'_>) -> Result<(), ReadError>
    ensures { Reads (ahead spec.is_below tokens.now) result tokens.now }
{
    match tokens.next() {
        Some((first, _)) if first.below() => Ok(()),
        _ => Err(tokens.refused()),
    }
}

/// Refuses the first token if it is a dot.
#[tactic(auto, unfolding(evo_combinators::specs::Guard::ahead, evo_combinators::specs::Guard::starts, evo_tree::specs::Statements::is_later))]
pub fn expect_later(tokens: &Cursor<'_>) -> Result<(), ReadError>
    ensures { Reads (ahead spec.is_later tokens.now) result tokens.now }
{
    match tokens.next() {
        Some((first, _)) if !first.is(Terminal::Dot) => Ok(()),
        _ => Err(tokens.refused()),
    }
}

#[tactic(auto, unfolding(evo_combinators::specs::Guard::starts, evo_combinators::specs::Guard::starts_two))]
fn starts_member_init(tokens: &Cursor<'_>) -> bool
    ensures { result ≡ starts_two (is_terminal Dot) (is_terminal Init) tokens.now }
{
    match tokens.next() {
        Some((first, rest)) => first.is(Terminal::Dot) && rest.starts(Terminal::Init),
        None => false,
    }
}

/// Whether this terminal, a dot and `init` come first.
#[tactic(auto, unfolding(evo_combinators::specs::Three::starts_three))]
pub fn starts_init(tokens: &Cursor<'_>, terminal: Terminal) -> bool
    ensures { result ≡ starts_three (is_terminal terminal) (is_terminal Dot) (is_terminal Init) tokens.now }
{
    match tokens.next() {
        Some((first, rest)) => first.is(terminal) && starts_member_init(&rest),
        None => false,
    }
}
