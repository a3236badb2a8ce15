//! Whether no rule is broken, which takes no memory.

ghost use Rattle.std.specs.Prelude.{◌≡◌, ◌↔◌, IsTrue, [], flat_map};
ghost use Rattle.evo_breaks.specs.Rules as rules;
ghost use Rattle.evo_breaks.specs.Found as found_there;
ghost use Rattle.evo_breaks.specs.Found.{HasOneForEachKey};

use crate::conditions::is_broken;
use crate::conformances::header_passes;
use crate::found::{declared_as, sort_of};
use crate::protocols::protocol_passes;
use crate::rule::Rule;
use crate::tried::{first_rules, is_nominal, is_tried, last_rules};
use evo_resolved::{RDecl, RModule};

// Whether an old declaration and the new one of its key break none of these rules.
fn rules_pass(list: &[Rule], old: &RModule, new: &RModule, before: &RDecl, after: &RDecl) -> bool
    requires old_keys { HasOneForEachKey old.now }
    requires new_keys { HasOneForEachKey new.now }
    ensures { IsTrue result ↔ (rules.broken_by list.now old.now new.now before.now after.now ≡ []) }
{
    for rule in list {
        if is_broken(*rule, old, new, before, after) {
            return false;
        }
    }
    true
}

#[tactic(auto, unfolding(crate::specs::Rules::compared), using(crate::proofs::Nothing::left_nil, crate::proofs::Nothing::right_nil))]
fn pair_passes(old: &RModule, new: &RModule, before: &RDecl, after: &RDecl) -> bool
    requires old_keys { HasOneForEachKey old.now }
    requires new_keys { HasOneForEachKey new.now }
    ensures { IsTrue result ↔ (rules.compared old.now new.now before.now after.now ≡ []) }
{
    let sort = sort_of(before);
    rules_pass(first_rules(sort), old, new, before, after)
        && protocol_passes(old, new, before)
        && rules_pass(last_rules(sort), old, new, before, after)
}

#[tactic(auto, unfolding(crate::specs::Rules::compared_by_kind))]
fn types_pass(old: &RModule, new: &RModule, before: &RDecl, after: &RDecl) -> bool
    requires old_keys { HasOneForEachKey old.now }
    requires new_keys { HasOneForEachKey new.now }
    ensures { IsTrue result ↔ (rules.compared_by_kind old.now new.now before.now after.now ≡ []) }
{
    if is_broken(Rule::KindChanged, old, new, before, after) {
        return false;
    }
    pair_passes(old, new, before, after)
}

#[tactic(auto, unfolding(crate::specs::Rules::compared_to))]
fn passes_to_new(old: &RModule, new: &RModule, decl: &RDecl) -> bool
    requires old_keys { HasOneForEachKey old.now }
    requires new_keys { HasOneForEachKey new.now }
    ensures { IsTrue result ↔ (rules.compared_to old.now new.now decl.now (found_there.declared_as (found_there.sort_of decl.now) new.now decl.now.own) ≡ []) }
{
    let sort = sort_of(decl);
    match declared_as(sort, new, &decl.own) {
        None => false,
        Some(after) => {
            if is_nominal(sort) {
                return types_pass(old, new, decl, after);
            }
            pair_passes(old, new, decl, after)
        }
    }
}

#[tactic(auto, unfolding(crate::specs::Rules::declaration_breaks))]
fn declaration_passes(old: &RModule, new: &RModule, decl: &RDecl) -> bool
    requires old_keys { HasOneForEachKey old.now }
    requires new_keys { HasOneForEachKey new.now }
    ensures { IsTrue result ↔ (rules.declaration_breaks old.now new.now decl.now ≡ []) }
{
    if !is_tried(old, new, decl) {
        return true;
    }
    passes_to_new(old, new, decl)
}

#[tactic(auto, unfolding(crate::specs::Rules::breaks_of), using(crate::proofs::Nothing::left_nil, crate::proofs::Nothing::right_nil))]
fn one_passes(old: &RModule, new: &RModule, decl: &RDecl) -> bool
    requires old_keys { HasOneForEachKey old.now }
    requires new_keys { HasOneForEachKey new.now }
    ensures { IsTrue result ↔ (rules.breaks_of old.now new.now decl.now ≡ []) }
{
    declaration_passes(old, new, decl) && header_passes(old, new, decl)
}

fn all_pass(old: &RModule, new: &RModule, decls: &[RDecl]) -> bool
    requires old_keys { HasOneForEachKey old.now }
    requires new_keys { HasOneForEachKey new.now }
    ensures { IsTrue result ↔ (flat_map (rules.breaks_of old.now new.now) decls.now ≡ []) }
{
    for decl in decls {
        if !one_passes(old, new, decl) {
            return false;
        }
    }
    true
}

/// Whether a new interface breaks no rule against an old one.
#[tactic(auto, unfolding(crate::specs::Rules::broken_rules))]
pub fn passes(old: &RModule, new: &RModule) -> bool
    requires old_keys { HasOneForEachKey old.now }
    requires new_keys { HasOneForEachKey new.now }
    ensures { IsTrue result ↔ (rules.broken_rules old.now new.now ≡ []) }
{
    if old.name.as_slice() != new.name.as_slice() {
        return false;
    }
    all_pass(old, new, old.decls.as_slice())
}
