//! Modules of whole texts.

ghost use Rattle.std.specs.Prelude.{◌≡◌, ◌-◌, ◌<◌, ◌^◌, length, IfOk, IfErr};
ghost use Rattle.evo_tree.specs.Modules.{Spells};
ghost use Rattle.evo_parse.specs.Contract.{IsHeaded};
ghost use Rattle.evo_parse.specs.Text.{IsUnread};
ghost use Rattle.evo_parse.specs.declared.text.TextFault.TheVariants.{Memory};

use crate::parser::parse;
use evo_base::{FaultKind, Place};
use evo_lex::{LexFault, lex};
use evo_parse_expr::ParseFault;
use evo_tree::{Form, Module, SourceFault};
use std::alloc::Global;

/// Why a text is no module.
#[derive(Clone, Copy, PartialEq, Eq)]
pub enum TextFault {
    /// It is no tokens, or they spell no module of the form: the first fault.
    Refused(SourceFault),
    /// Memory ran out.
    Memory,
}

fn refused(kind: FaultKind, place: Place) -> TextFault
    ensures { result ≡ TextFault.Refused (record { kind = kind; place = place }) }
{
    TextFault::Refused(SourceFault { kind, place })
}

/// The module that a text is, read in this form.
pub fn read_module(alloc: Global, text: &[u8], form: Form) -> Result<Module, TextFault>
    requires length { length text.now < 2 ^ 32 - 1 }
    requires headed { IsHeaded text.now form }
    ensures spelled { IfOk result (Spells text.now form) }
    ensures fault { IfErr result (IsUnread text.now form) }
{
    let tokens = match lex(alloc, text) {
        Ok(tokens) => tokens,
        Err(LexFault::Bad { kind, place }) => return Err(refused(kind, place)),
        Err(LexFault::Memory) => return Err(TextFault::Memory),
    };
    match parse(alloc, text, &tokens, form) {
        Ok(module) => Ok(module),
        Err(ParseFault::Grammar { place }) => Err(refused(FaultKind::Grammar, place)),
        Err(ParseFault::Deep { place }) => Err(refused(FaultKind::Deep, place)),
        Err(ParseFault::Memory) => Err(TextFault::Memory),
    }
}
