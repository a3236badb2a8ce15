//! The lines of the report.

ghost use Rattle.std.specs.Prelude.{◌≡◌, ◌++◌, IfOk, OnOk, string_bytes, flat_map, filter};
ghost use Rattle.evo_report.specs.Report as text;

use evo_base::{Key, List, Mark, Name, Part};
use evo_breaks::{Break, Rule, Side};
use evo_code::symbol_of;
use std::alloc::{AllocError, Global};

fn rule_name(rule: Rule) -> &'static str
    ensures { result.now ≡ text.rule_name rule }
{
    match rule {
        Rule::DeclarationRemoved => "E1",
        Rule::KindChanged => "E2",
        Rule::AccessLowered => "E3",
        Rule::SignatureChanged => "E4",
        Rule::PropertyChanged => "E5",
        Rule::FrozenChanged => "E6",
        Rule::FrozenStorageChanged => "E7",
        Rule::FrozenCasesChanged => "E8",
        Rule::CaseChanged => "E9",
        Rule::ClassFinalityChanged => "E10",
        Rule::SuperclassLost => "E11",
        Rule::OpenOrFinalChanged => "E12",
        Rule::RequirementChanged => "E13",
        Rule::RequirementWithoutDefault => "E14",
        Rule::AssociatedTypeChanged => "E15",
        Rule::InheritedProtocolsChanged => "E16",
        Rule::ConformanceChanged => "E17",
        Rule::IntroducedLater => "E18",
        Rule::ModuleNameDiffers => "E19",
    }
}

fn rule_text(rule: Rule) -> &'static str
    ensures { result.now ≡ text.rule_text rule }
{
    match rule {
        Rule::DeclarationRemoved => "declaration removed",
        Rule::KindChanged => "kind changed",
        Rule::AccessLowered => "access lowered",
        Rule::SignatureChanged => "signature changed",
        Rule::PropertyChanged => "property changed",
        Rule::FrozenChanged => "frozen changed",
        Rule::FrozenStorageChanged => "frozen storage changed",
        Rule::FrozenCasesChanged => "frozen cases changed",
        Rule::CaseChanged => "case removed or changed",
        Rule::ClassFinalityChanged => "finality of the class changed",
        Rule::SuperclassLost => "superclass lost",
        Rule::OpenOrFinalChanged => "open or final changed",
        Rule::RequirementChanged => "requirement removed or changed",
        Rule::RequirementWithoutDefault => "requirement without default",
        Rule::AssociatedTypeChanged => "associated type changed",
        Rule::InheritedProtocolsChanged => "inherited protocols changed",
        Rule::ConformanceChanged => "conformance removed or changed",
        Rule::IntroducedLater => "introduced later",
        Rule::ModuleNameDiffers => "module name differs",
    }
}

fn is_reported(mark: &Mark) -> bool
    ensures { result ≡ text.is_reported mark.now }
{
    matches!(mark, Mark::Conformance(_))
}

fn reported_marks(alloc: Global, marks: &[Mark]) -> Result<List<Mark>, AllocError>
    ensures { IfOk result (λ copies. copies ≡ filter text.is_reported marks.now) }
{
    let mut copies = Vec::new(alloc);
    for mark in marks {
        if is_reported(mark) {
            copies.push(mark.copy(alloc)?)?;
        }
    }
    Ok(List::from_vec(copies))
}

fn reported(alloc: Global, key: &Key) -> Result<Key, AllocError>
    ensures { IfOk result (λ copy. copy ≡ text.reported key.now) }
{
    let mut copy = key.copy(alloc)?;
    let marks = reported_marks(alloc, key.part.marks.as_slice())?;
    copy.part = Part { marks };
    Ok(copy)
}

fn put_key(alloc: Global, out: &mut String, key: &Key) -> Result<(), AllocError>
    ensures { OnOk result (string_bytes out.new ≡ string_bytes out.old ++ text.key_text key.now) }
{
    let key = reported(alloc, key)?;
    let symbol = symbol_of(alloc, &key)?;
    out.push_str(symbol.as_str())?;
    Ok(())
}

fn put_side(alloc: Global, out: &mut String, name: &Name, side: &Side) -> Result<(), AllocError>
    ensures { OnOk result (string_bytes out.new ≡ string_bytes out.old ++ text.side_text name.now side.now) }
{
    match side {
        Side::Module => out.push_str(name.as_str()),
        Side::Declared(key) => put_key(alloc, out, key),
    }
}

#[tactic(auto, unfolding(crate::specs::Report::line))]
fn put_line(
    alloc: Global,
    out: &mut String,
    old: &Name,
    new: &Name,
    broken: &Break,
) -> Result<(), AllocError>
    ensures { OnOk result (string_bytes out.new ≡ string_bytes out.old ++ text.line old.now new.now broken.now) }
{
    out.push_str(rule_name(broken.rule))?;
    out.push_str(" old ")?;
    put_side(alloc, out, old, &broken.old)?;
    out.push_str(" new ")?;
    put_side(alloc, out, new, &broken.new)?;
    out.push_str(": ")?;
    out.push_str(rule_text(broken.rule))?;
    out.push_str("\n")?;
    Ok(())
}

fn put_lines(
    alloc: Global,
    out: &mut String,
    old: &Name,
    new: &Name,
    list: &[Break],
) -> Result<(), AllocError>
    ensures { OnOk result (string_bytes out.new ≡ string_bytes out.old ++ text.report_text old.now new.now list.now) }
{
    for broken in list {
        put_line(alloc, out, old, new, broken)?;
    }
    Ok(())
}

/// The report on broken rules, with the names of the old module and of the new one. Only memory can fail.
pub fn report(alloc: Global, list: &[Break], old: &Name, new: &Name) -> Result<Vec<u8>, AllocError>
    ensures { IfOk result (λ bytes. bytes.items ≡ text.report_text old.now new.now list.now) }
{
    let mut out = String::new(alloc);
    put_lines(alloc, &mut out, old, new, list)?;
    Ok(out.into_bytes())
}
