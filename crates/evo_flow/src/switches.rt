//! Whether a `switch` has a clause for every value.

ghost use Rattle.std.specs.Prelude.{◌≡◌, map, true, false};
ghost use Rattle.std.specs.List.{list_any, list_all};
ghost use Rattle.evo_flow.specs.Scenes.{scene_of};
ghost use Rattle.evo_flow.specs.Subjects.{subject_view};
ghost use Rattle.evo_flow.specs.Switches as spec;
ghost use Rattle.evo_resolved.specs.declared.statement.RClause.{out-RClause};

use crate::declared::{is_case_of, is_closed};
use crate::keys::is_same;
use crate::looked::Subject;
use crate::site::Site;
use evo_base::Key;
use evo_resolved::{Literal, RClause, RClauseLabel, RDecl, RPattern};

fn same_truth(first: bool, second: bool) -> bool
    ensures { result ≡ spec.same_truth first second }
{
    if first { second } else { !second }
}

fn takes_case(key: &Key, pattern: &RPattern) -> bool
    ensures { result ≡ spec.takes_case key.now pattern.now }
{
    match pattern {
        RPattern::Case(_, _, case, _) => is_same(case, key),
        RPattern::Literal(_, _) => false,
    }
}

fn is_truth(value: bool, literal: &Literal) -> bool
    ensures { result ≡ spec.is_truth value literal.now }
{
    match literal {
        Literal::Boolean(other) => same_truth(value, *other),
        Literal::Integer(_) => false,
        Literal::String(_) => false,
    }
}

fn takes_truth(value: bool, pattern: &RPattern) -> bool
    ensures { result ≡ spec.takes_truth value pattern.now }
{
    match pattern {
        RPattern::Literal(_, literal) => is_truth(value, literal),
        RPattern::Case(_, _, _, _) => false,
    }
}

fn case_among(key: &Key, patterns: &[RPattern]) -> bool
    ensures { result ≡ list_any (spec.takes_case key.now) patterns.now }
{
    for pattern in patterns {
        if takes_case(key, pattern) {
            return true;
        }
    }
    false
}

fn truth_among(value: bool, patterns: &[RPattern]) -> bool
    ensures { result ≡ list_any (spec.takes_truth value) patterns.now }
{
    for pattern in patterns {
        if takes_truth(value, pattern) {
            return true;
        }
    }
    false
}

fn lists_case_by(key: &Key, label: &RClauseLabel) -> bool
    ensures { result ≡ spec.lists_by (spec.takes_case key.now) label.now }
{
    match label {
        RClauseLabel::Case(patterns) => case_among(key, patterns.as_slice()),
        RClauseLabel::Default => false,
        RClauseLabel::UnknownDefault => false,
    }
}

fn lists_truth_by(value: bool, label: &RClauseLabel) -> bool
    ensures { result ≡ spec.lists_by (spec.takes_truth value) label.now }
{
    match label {
        RClauseLabel::Case(patterns) => truth_among(value, patterns.as_slice()),
        RClauseLabel::Default => false,
        RClauseLabel::UnknownDefault => false,
    }
}

fn lists_case(key: &Key, clauses: &[RClause]) -> bool
    ensures { result ≡ spec.lists (spec.takes_case key.now) (map (λ c. (out-RClause c).label) clauses.now) }
{
    for clause in clauses {
        if lists_case_by(key, &clause.label) {
            return true;
        }
    }
    false
}

fn lists_truth(value: bool, clauses: &[RClause]) -> bool
    ensures { result ≡ spec.lists (spec.takes_truth value) (map (λ c. (out-RClause c).label) clauses.now) }
{
    for clause in clauses {
        if lists_truth_by(value, &clause.label) {
            return true;
        }
    }
    false
}

fn is_default(label: &RClauseLabel) -> bool
    ensures { result ≡ spec.is_default label.now }
{
    match label {
        RClauseLabel::Case(_) => false,
        RClauseLabel::Default => true,
        RClauseLabel::UnknownDefault => true,
    }
}

fn has_default(clauses: &[RClause]) -> bool
    ensures { result ≡ list_any spec.is_default (map (λ c. (out-RClause c).label) clauses.now) }
{
    for clause in clauses {
        if is_default(&clause.label) {
            return true;
        }
    }
    false
}

// A case of the enum is listed; anything else need not be.
fn is_listed(key: &Key, clauses: &[RClause], declaration: &RDecl) -> bool
    ensures { result ≡ spec.is_listed key.now (map (λ c. (out-RClause c).label) clauses.now) declaration.now }
{
    if is_case_of(key, declaration) {
        return lists_case(&declaration.key, clauses);
    }
    true
}

fn lists_cases_among(key: &Key, clauses: &[RClause], declarations: &[RDecl]) -> bool
    ensures { result ≡ list_all (spec.is_listed key.now (map (λ c. (out-RClause c).label) clauses.now)) declarations.now }
{
    for declaration in declarations {
        if !is_listed(key, clauses, declaration) {
            return false;
        }
    }
    true
}

fn lists_cases(site: Site<'_>, key: &Key, clauses: &[RClause]) -> bool
    ensures { result ≡ spec.lists_cases (scene_of site.entry) key.now (map (λ c. (out-RClause c).label) clauses.now) }
{
    if lists_cases_among(key, clauses, site.own) {
        return lists_cases_among(key, clauses, site.imported);
    }
    false
}

fn lists_both(clauses: &[RClause]) -> bool
    ensures { result ≡ spec.lists_both (map (λ c. (out-RClause c).label) clauses.now) }
{
    if lists_truth(true, clauses) {
        return lists_truth(false, clauses);
    }
    false
}

fn lists_all(site: Site<'_>, subject: Subject<'_>, clauses: &[RClause]) -> bool
    ensures { result ≡ spec.lists_all (scene_of site.entry) (subject_view subject.entry) (map (λ c. (out-RClause c).label) clauses.now) }
{
    match subject {
        Subject::Truth => lists_both(clauses),
        Subject::Declared(key) => {
            if is_closed(site, key) {
                return lists_cases(site, key, clauses);
            }
            false
        }
        Subject::Other => false,
    }
}

/// Whether a `switch` has a clause for every value.
pub(crate) fn is_exhaustive(site: Site<'_>, subject: Subject<'_>, clauses: &[RClause]) -> bool
    ensures { result ≡ spec.is_exhaustive (scene_of site.entry) (subject_view subject.entry) (map (λ c. (out-RClause c).label) clauses.now) }
{
    if has_default(clauses) {
        return true;
    }
    lists_all(site, subject, clauses)
}
