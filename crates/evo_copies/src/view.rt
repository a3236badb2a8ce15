ghost use Rattle.std.specs.Prelude.{◌≡◌, Some, None, length, IfOk, MatchOption};
ghost use Rattle.evo_base.specs.Names.{AreDistinct};
ghost use Rattle.evo_first_form.specs.Interface.{declared_names};
ghost use Rattle.evo_first_form.specs.Copies.{copied_body};

use evo_base::{Name, NameTable};
use evo_first_form::{Declaration, Term};
use evo_iface::declared_table;
use std::alloc::{AllocError, Global};
use std::marker::Model;

/// A function that clients copy.
#[derive(Drop)]
pub struct Copied<'a> {
    pub name: &'a Name,
    pub body: &'a Term,
}

/// What a client sees of a library: its declarations, each found by its name. Contracts see the list of
/// the declarations.
#[derive(Drop)]
pub struct View<'a> {
    declarations: &'a [Declaration],
    names: NameTable,
}

impl<'a> Model for View<'a> {
    ghost use Rattle.std.specs.Prelude.{List, ◌≡◌};
    ghost use Rattle.evo_first_form.specs.declared.Declaration.{Declaration};
    ghost use Rattle.evo_first_form.specs.Interface.{declared_names};

    ghost Value = { List Declaration };

    ghost view = { λ v. v.declarations.now };

    ghost invariant = { λ v. v.names ≡ declared_names v.declarations.now };
}

impl<'a> View<'a> {
    /// The view of these declarations. Only memory can fail.
    pub fn new(alloc: Global, declarations: &'a [Declaration]) -> Result<View<'a>, AllocError>
        requires { AreDistinct (declared_names declarations.now) }
        ensures { IfOk result (λ v. v ≡ declarations.now) }
    {
        let names = declared_table(alloc, declarations)?;
        Ok(View {
            declarations,
            names,
        })
    }

    /// How many declarations there are.
    pub fn len(&self) -> usize
        ensures { result ≡ length self.now }
    {
        self.declarations.len()
    }

    /// The function of this name, where clients may copy it.
    pub fn copied(&self, name: &[u8]) -> Option<Copied<'a>>
        ensures { MatchOption result (copied_body self.now name.now ≡ None) (λ c. (copied_body self.now name.now ≡ Some c.body.now) × (c.name.now ≡ name.now)) }
    {
        let place = self.names.position(name)?;
        let declaration = &self.declarations[place];
        let body = declaration.body.as_ref()?;
        Some(Copied {
            name: &declaration.name,
            body,
        })
    }
}
