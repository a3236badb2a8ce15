//! Faults that stand in the text of a body whether it is reached or not.

ghost use Rattle.std.specs.Prelude.{◌≡◌, map};
ghost use Rattle.evo_resolved.specs.declared.statement.RClause.{out-RClause};
ghost use Rattle.evo_flow.specs.Types.{type_of};
ghost use Rattle.evo_flow.specs.Scenes.{scene_of, subject_of};
ghost use Rattle.evo_flow.specs.Switches as switches;
ghost use Rattle.evo_flow.specs.Text as spec;
ghost use Rattle.evo_flow.specs.Text.{block_faults, first_of, stmt_faults, told_in_turn};

use crate::looked::looked_at;
use crate::site::Site;
use crate::switches::is_exhaustive;
use evo_base::{FaultKind, Place};
use evo_resolved::{RBlock, RBranch, RClause, RExpr, RStmt};
use evo_tree::SourceFault;
use sqlite_items::Items;

/// Whether there is something around that `break` leaves, and something that `continue` repeats.
#[derive(Clone, Copy)]
pub struct Around {
    pub breaks: bool,
    pub continues: bool,
}

fn stray(left: bool, place: Place) -> Option<SourceFault>
    ensures { result ≡ first_of (spec.stray left place) }
{
    if left {
        return None;
    }
    Some(SourceFault {
        kind: FaultKind::StrayJump,
        place,
    })
}

fn in_loop() -> Around
    ensures { result ≡ spec.in_loop }
{
    Around {
        breaks: true,
        continues: true,
    }
}

fn in_switch(around: Around) -> Around
    ensures { result ≡ spec.in_switch around }
{
    Around {
        breaks: true,
        continues: around.continues,
    }
}

fn open_switch(
    site: Site<'_>,
    place: Place,
    value: &RExpr,
    clauses: &[RClause],
) -> Option<SourceFault>
    ensures { result ≡ first_of (spec.open_switch (switches.is_exhaustive (scene_of site.entry) (subject_of (type_of value.now)) (map (λ c. (out-RClause c).label) clauses.now)) place) }
{
    if is_exhaustive(site, looked_at(value), clauses) {
        return None;
    }
    Some(SourceFault {
        kind: FaultKind::NotExhaustive,
        place,
    })
}

#[cycle(texts)]
fn in_statements(site: Site<'_>, around: Around, statements: &Items<RStmt>) -> Option<SourceFault>
    ensures { result ≡ first_of (told_in_turn (map (stmt_faults (scene_of site.entry)) statements.now) around) }
{
    for statement in statements.as_slice() {
        if let Some(fault) = in_stmt(site, around, statement) {
            return Some(fault);
        }
    }
    None
}

/// The first fault in the text of a block.
#[cycle(texts)]
pub(crate) fn in_block(site: Site<'_>, around: Around, block: &RBlock) -> Option<SourceFault>
    ensures { result ≡ first_of (block_faults (scene_of site.entry) block.now around) }
{
    in_statements(site, around, &block.statements)
}

#[cycle(texts)]
fn in_branches(site: Site<'_>, around: Around, branches: &Items<RBranch>) -> Option<SourceFault>
    ensures { result ≡ first_of (told_in_turn (map (λ b. block_faults (scene_of site.entry) b.1) branches.now) around) }
{
    for branch in branches.as_slice() {
        if let Some(fault) = in_block(site, around, &branch.1) {
            return Some(fault);
        }
    }
    None
}

#[cycle(texts)]
fn in_clauses(site: Site<'_>, around: Around, clauses: &Items<RClause>) -> Option<SourceFault>
    ensures { result ≡ first_of (told_in_turn (map (λ c. told_in_turn (map (stmt_faults (scene_of site.entry)) (out-RClause c).statements)) clauses.now) around) }
{
    for clause in clauses.as_slice() {
        if let Some(fault) = in_statements(site, around, &clause.statements) {
            return Some(fault);
        }
    }
    None
}

#[cycle(texts)]
fn in_stmt(site: Site<'_>, around: Around, statement: &RStmt) -> Option<SourceFault>
    ensures { result ≡ first_of (stmt_faults (scene_of site.entry) statement.now around) }
{
    match statement {
        RStmt::If(_, branches) => in_branches(site, around, branches),
        RStmt::While(_, _, block) => in_block(site, in_loop(), block),
        RStmt::Break(place) => stray(around.breaks, *place),
        RStmt::Continue(place) => stray(around.continues, *place),
        RStmt::Switch(place, value, clauses) => {
            match open_switch(site, *place, value, clauses.as_slice()) {
                Some(fault) => Some(fault),
                None => in_clauses(site, in_switch(around), clauses),
            }
        }
        RStmt::Local(_, _, _, _) => None,
        RStmt::Expr(_) => None,
        RStmt::Assign(_, _, _, _) => None,
        RStmt::Fill(_, _, _) => None,
        RStmt::SelfInit(_) => None,
        RStmt::SuperInit(_) => None,
        RStmt::Return(_, _) => None,
    }
}
