//! The symbols of keys.

ghost use Rattle.std.specs.Prelude.{◌≡◌, ◌++◌, IfOk, OnOk, string_bytes};
ghost use Rattle.evo_base.specs.declared.key.Mark.TheVariants as mark;
ghost use Rattle.evo_code.specs.Symbols.{symbol_text, module_text, context_text, labels_text, each_label, marks_text, mark_text, protocol_text};

use crate::layout::Symbol;
use evo_base::{Key, List, Mark, Name, ProtocolName};
use std::alloc::{AllocError, Global};

fn put_protocol(out: &mut String, protocol: &ProtocolName) -> Result<(), AllocError>
    ensures { OnOk result (string_bytes out.new ≡ string_bytes out.old ++ protocol_text protocol.now) }
{
    out.push_str(":")?;
    out.push_str(protocol.module.as_str())?;
    out.push_str(".")?;
    out.push_str(protocol.name.as_str())?;
    Ok(())
}

fn put_inherited(out: &mut String, protocol: &ProtocolName, behind: &str) -> Result<(), AllocError>
    ensures { OnOk result (string_bytes out.new ≡ string_bytes out.old ++ (protocol_text protocol.now ++ behind.now)) }
{
    put_protocol(out, protocol)?;
    out.push_str(behind)?;
    Ok(())
}

fn put_thunk(out: &mut String, symbol: &Name) -> Result<(), AllocError>
    ensures { OnOk result (string_bytes out.new ≡ string_bytes out.old ++ mark_text (mark.Thunk symbol.now)) }
{
    out.push_str("/")?;
    out.push_str(symbol.as_str())?;
    out.push_str("#thunk")?;
    Ok(())
}

fn put_mark(out: &mut String, mark: &Mark) -> Result<(), AllocError>
    ensures { OnOk result (string_bytes out.new ≡ string_bytes out.old ++ mark_text mark.now) }
{
    match mark {
        Mark::Get => out.push_str("#get"),
        Mark::Set => out.push_str("#set"),
        Mark::Requirement => out.push_str("#requirement"),
        Mark::RequirementGet => out.push_str("#requirement.get"),
        Mark::RequirementSet => out.push_str("#requirement.set"),
        Mark::Case => out.push_str("#case"),
        Mark::Is => out.push_str("#is"),
        Mark::Take => out.push_str("#take"),
        Mark::New => out.push_str("#new"),
        Mark::Size => out.push_str("#size"),
        Mark::Instance => out.push_str("#instance"),
        Mark::Class => out.push_str("#class"),
        Mark::Protocol => out.push_str("#protocol"),
        Mark::Copy => out.push_str("#copy"),
        Mark::Override => out.push_str("#override"),
        Mark::Start => out.push_str("#start"),
        Mark::Conformance(protocol) => put_protocol(out, protocol),
        Mark::Inherited(protocol) => put_inherited(out, protocol, "#conformance"),
        Mark::Associated(protocol) => put_inherited(out, protocol, "#associated"),
        Mark::Thunk(symbol) => put_thunk(out, symbol),
    }
}

fn put_marks(out: &mut String, marks: &List<Mark>) -> Result<(), AllocError>
    ensures { OnOk result (string_bytes out.new ≡ string_bytes out.old ++ marks_text marks.now) }
{
    for mark in marks.as_slice() {
        put_mark(out, mark)?;
    }
    Ok(())
}

fn put_each_label(out: &mut String, labels: &List<Name>) -> Result<(), AllocError>
    ensures { OnOk result (string_bytes out.new ≡ string_bytes out.old ++ each_label labels.now) }
{
    for label in labels.as_slice() {
        out.push_str(label.as_str())?;
        out.push_str(":")?;
    }
    Ok(())
}

fn put_labels(out: &mut String, labels: &Option<List<Name>>) -> Result<(), AllocError>
    ensures { OnOk result (string_bytes out.new ≡ string_bytes out.old ++ labels_text labels.now) }
{
    let Some(labels) = labels else {
        return Ok(());
    };
    out.push_str("(")?;
    put_each_label(out, labels)?;
    out.push_str(")")?;
    Ok(())
}

fn put_context(out: &mut String, context: &List<Name>) -> Result<(), AllocError>
    ensures { OnOk result (string_bytes out.new ≡ string_bytes out.old ++ context_text context.now) }
{
    for name in context.as_slice() {
        out.push_str(name.as_str())?;
        out.push_str(".")?;
    }
    Ok(())
}

fn put_module(out: &mut String, declarer: &Name, context: &List<Name>) -> Result<(), AllocError>
    ensures { OnOk result (string_bytes out.new ≡ string_bytes out.old ++ module_text declarer.now context.now) }
{
    let Some(first) = context.as_slice().first() else {
        return Ok(());
    };
    if declarer.as_slice() == first.as_slice() {
        return Ok(());
    }
    out.push_str(declarer.as_str())?;
    out.push_str(":")?;
    Ok(())
}

// The name of this text, whose bytes are UTF-8.
fn name_of(text: String) -> Name
    ensures { result ≡ string_bytes text }
{
    let _utf8 = text.as_str();
    Name::from_vec(text.into_bytes())
}

/// The symbol of a key.
pub fn symbol_of(alloc: Global, key: &Key) -> Result<Symbol, AllocError>
    ensures { IfOk result (λ s. s ≡ symbol_text key.now) }
{
    let mut out = String::new(alloc);
    put_module(&mut out, &key.module, &key.context)?;
    put_context(&mut out, &key.context)?;
    out.push_str(key.base.as_str())?;
    put_labels(&mut out, &key.labels)?;
    put_marks(&mut out, &key.part.marks)?;
    Ok(name_of(out))
}
