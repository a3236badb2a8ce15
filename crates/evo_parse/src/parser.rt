//! The parser of modules.

ghost use Rattle.std.specs.Prelude.{◌≡◌, ◌<◌, ◌-◌, ◌^◌, length, IfOk, IfErr};
ghost use Rattle.evo_lex.specs.Tokenization.{Tokenization};
ghost use Rattle.evo_tree.specs.Modules.{Spells, IsNamed};
ghost use Rattle.evo_parse.specs.Contract.{IsFault, IsHeaded};

use crate::part::{all_parts, split};
use evo_base::{Name, Release, Token};
use evo_heading::heading;
use evo_parse_expr::{Cursor, ParseFault, fault_of, lexemes};
use evo_tree::{Form, Module, ModuleTree};
use std::alloc::{AllocError, Global};

/// How much nesting may open.
const NESTING: u32 = 64;

// The name of a module, and its release where it is an interface.
fn named(alloc: Global, text: &[u8], form: &Form) -> Result<(Name, Option<Release>), AllocError>
    requires { IsHeaded text.now form.now }
    ensures { IfOk result (λ x. IsNamed text.now form.now x.0 x.1) }
{
    match form {
        Form::Library(name) => Ok((name.copy(alloc)?, None)),
        Form::Client => Ok((Name::from_vec(b"main".to_vec(alloc)?), None)),
        Form::Interface => match heading(alloc, text)? {
            Some(found) => Ok((found.name, Some(found.release))),
            None => unreachable!(),
        },
    }
}

/// The module that the tokens of a whole text spell in this form.
///
/// A library's name is that of the form and a client's is `main`; an interface says its own in its first two
/// lines, which are comments to the grammar.
pub fn parse(alloc: Global, text: &[u8], tokens: &[Token], form: Form) -> Result<Module, ParseFault>
    requires length { length text.now < 2 ^ 32 - 1 }
    requires cut { Tokenization text.now tokens.now }
    requires headed { IsHeaded text.now form }
    ensures spelled { IfOk result (Spells text.now form) }
    ensures fault { IfErr result (IsFault text.now tokens.now form) }
{
    let lexemes = lexemes(alloc, text, None, tokens)?;
    let mut cursor = Cursor::new(&lexemes);
    let parts = match all_parts(alloc, &mut cursor, &form, NESTING) {
        Ok(parts) => parts,
        Err(error) => return Err(fault_of(alloc, text, tokens, error)?),
    };
    let (imports, items) = split(alloc, parts)?;
    let (name, release) = named(alloc, text, &form)?;
    Ok(Module::of_text(ModuleTree {
        form,
        name,
        release,
        imports,
        items,
    }))
}
