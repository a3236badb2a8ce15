//! The faults of paths in one body.

ghost use Rattle.std.specs.Prelude.{◌≡◌, map, filter, Some};
ghost use Rattle.std.specs.Option.{option_map};
ghost use Rattle.evo_resolved.specs.declared.statement.RStmt.{out-RStmt};
ghost use Rattle.evo_flow.specs.Types as typing;
ghost use Rattle.evo_flow.specs.Scenes.{is_stored_of, scene_of, seen};
ghost use Rattle.evo_flow.specs.Faults as spec;
ghost use Rattle.evo_flow.specs.Made.{made_view};
ghost use Rattle.evo_flow.specs.Text as text;
ghost use Rattle.evo_flow.specs.Verdict as computed;

use crate::declared::{is_let, is_stored_of, is_subclass};
use crate::flow::{Fact, Out, on_leaving};
use crate::site::Site;
use crate::statements::walk_block;
use crate::text::{Around, in_block};
use crate::ways::{step, then};
use evo_base::{FaultKind, Key, Place};
use evo_resolved::{BodyRole, RBlock, RBody, RDecl, RStmt, RType, Standing};
use evo_tree::{NominalKind, SourceFault};

/// What a body makes.
#[derive(Clone, Copy)]
pub enum Made<'a> {
    Nothing,
    Struct(&'a Key),
    Enum,
    Object(&'a Key),
    /// `Int`, `Bool` or `String`.
    OfLanguage,
}

fn has_value(of: &RType) -> bool
    ensures { result ≡ typing.has_value of.now }
{
    match of {
        RType::NoValue => false,
        _ => true,
    }
}

fn return_fault(due: bool, out: Out, place: Place) -> Option<SourceFault>
    ensures { result ≡ computed.return_fault due out place }
{
    if !due {
        return None;
    }
    if out.next.undone || out.next.done {
        return Some(SourceFault {
            kind: FaultKind::MissingReturn,
            place,
        });
    }
    None
}

fn fact_fault(block: &RBlock, fact: Fact, property: &Key) -> Option<SourceFault>
    ensures { result ≡ computed.fact_fault block.now (fact, property.now) }
{
    let end = step(on_leaving(fact, property, block.end));
    then(&walk_block(fact, property, block), &end).undone.fault
}

fn is_self_init(statement: &RStmt) -> bool
    ensures { result ≡ spec.is_self_init (out-RStmt statement.now) }
{
    match statement {
        RStmt::SelfInit(_) => true,
        _ => false,
    }
}

fn delegates(block: &RBlock) -> bool
    ensures { result ≡ spec.delegates block.now }
{
    match block.statements.as_slice() {
        [first, ..] => is_self_init(first),
        [] => false,
    }
}

fn made_value<'a>(kind: NominalKind, key: &'a Key) -> Made<'a>
    ensures { made_view result ≡ spec.value_of kind key.now }
{
    match kind {
        NominalKind::Struct => {
            if key.module.as_slice() == b"Swift".as_slice() {
                Made::OfLanguage
            } else {
                Made::Struct(key)
            }
        }
        NominalKind::Enum => Made::Enum,
        NominalKind::Class => Made::Nothing,
        NominalKind::Protocol => Made::Nothing,
    }
}

fn made_of_value<'a>(standing: &'a Standing) -> Made<'a>
    ensures { made_view result ≡ spec.made_value standing.now }
{
    match standing {
        Standing::Braces(kind, key) => made_value(*kind, key),
        Standing::Extension(kind, key) => made_value(*kind, key),
        Standing::TopLevel => Made::Nothing,
    }
}

fn made_object<'a>(standing: &'a Standing) -> Made<'a>
    ensures { made_view result ≡ spec.made_object standing.now }
{
    match standing {
        Standing::Braces(_, key) => Made::Object(key),
        Standing::Extension(_, _) => Made::Nothing,
        Standing::TopLevel => Made::Nothing,
    }
}

fn what_is_made<'a>(role: BodyRole, standing: &'a Standing) -> Made<'a>
    ensures { made_view result ≡ spec.made role standing.now }
{
    match role {
        BodyRole::ValueInitialiser => made_of_value(standing),
        BodyRole::ObjectInitialiser => made_object(standing),
        BodyRole::Plain => Made::Nothing,
        BodyRole::Mutating => Made::Nothing,
        BodyRole::TopLevel => Made::Nothing,
    }
}

fn lead(site: Site<'_>, made: Made<'_>, delegates: bool) -> Option<Fact>
    ensures { result ≡ spec.lead (scene_of site.entry) (made_view made.entry) delegates }
{
    match made {
        Made::Nothing => None,
        Made::Struct(_) => {
            if delegates {
                Some(Fact::Delegated)
            } else {
                None
            }
        }
        Made::Enum => {
            if delegates {
                Some(Fact::Delegated)
            } else {
                Some(Fact::Whole)
            }
        }
        Made::Object(key) => {
            if is_subclass(site, key) {
                Some(Fact::Super)
            } else {
                None
            }
        }
        Made::OfLanguage => Some(Fact::Delegated),
    }
}

fn lead_fault(site: Site<'_>, body: &RBody, block: &RBlock, made: Made<'_>) -> Option<SourceFault>
    ensures { result ≡ computed.lead_fault block.now (spec.lead (scene_of site.entry) (made_view made.entry) (spec.delegates block.now)) body.now.owner }
{
    match lead(site, made, delegates(block)) {
        Some(fact) => fact_fault(block, fact, &body.owner),
        None => None,
    }
}

// The fault of a property, where the declaration is one of the type.
fn property_fault(block: &RBlock, key: &Key, declaration: &RDecl) -> Option<SourceFault>
    ensures { result ≡ computed.property_fault block.now key.now declaration.now }
{
    if is_stored_of(key, declaration) {
        return fact_fault(
            block,
            Fact::Property(is_let(&declaration.kind)),
            &declaration.key,
        );
    }
    None
}

fn properties_fault(block: &RBlock, key: &Key, declarations: &[RDecl]) -> Option<SourceFault>
    ensures { result ≡ computed.facts_fault block.now (map spec.property (filter (is_stored_of key.now) declarations.now)) }
{
    for declaration in declarations {
        if let Some(fault) = property_fault(block, key, declaration) {
            return Some(fault);
        }
    }
    None
}

fn stored_fault(site: Site<'_>, block: &RBlock, key: &Key) -> Option<SourceFault>
    ensures { result ≡ computed.facts_fault block.now (spec.properties (seen (scene_of site.entry)) (Some key.now)) }
{
    match properties_fault(block, key, site.own) {
        Some(fault) => Some(fault),
        None => properties_fault(block, key, site.imported),
    }
}

fn all_stored_fault(site: Site<'_>, block: &RBlock, made: Made<'_>) -> Option<SourceFault>
    ensures { result ≡ computed.facts_fault block.now (spec.properties (seen (scene_of site.entry)) (spec.stored_in (made_view made.entry))) }
{
    match made {
        Made::Struct(key) => stored_fault(site, block, key),
        Made::Object(key) => stored_fault(site, block, key),
        Made::Nothing => None,
        Made::Enum => None,
        Made::OfLanguage => None,
    }
}

fn facts_fault(site: Site<'_>, body: &RBody, block: &RBlock) -> Option<SourceFault>
    ensures { result ≡ computed.facts_fault block.now (spec.facts (scene_of site.entry) body.now block.now) }
{
    let made = what_is_made(body.scope.role, &body.scope.standing);
    match lead_fault(site, body, block, made) {
        Some(fault) => Some(fault),
        None => all_stored_fault(site, block, made),
    }
}

fn end_fault(body: &RBody, block: &RBlock) -> Option<SourceFault>
    ensures { result ≡ computed.end_fault body.now block.now }
{
    let flow = walk_block(Fact::Reached, &body.owner, block);
    return_fault(has_value(&body.scope.result), flow.undone, block.end)
}

fn path_fault(site: Site<'_>, body: &RBody, block: &RBlock) -> Option<SourceFault>
    ensures { result ≡ computed.path_fault (scene_of site.entry) body.now block.now }
{
    match end_fault(body, block) {
        Some(fault) => Some(fault),
        None => facts_fault(site, body, block),
    }
}

fn outside() -> Around
    ensures { result ≡ text.outside }
{
    Around {
        breaks: false,
        continues: false,
    }
}

fn verdict(site: Site<'_>, body: &RBody, block: &RBlock) -> Option<SourceFault>
    ensures { result ≡ computed.verdict (scene_of site.entry) body.now block.now }
{
    match in_block(site, outside(), block) {
        Some(fault) => Some(fault),
        None => path_fault(site, body, block),
    }
}

fn body_verdict(site: Site<'_>, body: &RBody) -> Option<SourceFault>
    ensures { result ≡ computed.body_verdict (scene_of site.entry) body.now body.now.block }
{
    match &body.block {
        Some(block) => verdict(site, body, block),
        None => None,
    }
}

/// A fault of the paths of a body, or nothing where there is none.
pub fn check_flow(site: Site<'_>, body: &RBody) -> Result<(), SourceFault>
    ensures { spec.IsExact (scene_of site.entry) body.now result }
{
    match body_verdict(site, body) {
        Some(fault) => Err(fault),
        None => Ok(()),
    }
}
