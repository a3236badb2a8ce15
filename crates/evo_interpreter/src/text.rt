//! Strings that several words hold.

ghost use Rattle.std.specs.Prelude.{◌≡◌, IfOk};
ghost use Rattle.std.specs.Str.{IsUtf8};

use evo_base::Name;
use std::alloc::{AllocError, Global};
use std::marker::Model;
use std::rc::Rc;

/// A string that is never changed, so that a copy of it is the same string. Contracts see its bytes.
#[derive(Drop)]
pub struct Text {
    name: Rc<Name>,
}

impl Model for Text {
    ghost use Rattle.std.specs.Prelude.{List, ℕ};
    ghost use Rattle.std.specs.Rc.{rc_value};

    ghost Value = { List ℕ };

    ghost view = { λ t. rc_value t.name };
}

impl Text {
    /// The string of this name.
    pub fn new(alloc: Global, name: Name) -> Result<Text, AllocError>
        ensures { IfOk result (λ t. t ≡ name) }
    {
        let name = Rc::new(alloc, name)?;
        Ok(Text { name })
    }

    /// The string, as a name.
    pub fn name(&self) -> &Name
        ensures { result.now ≡ self.now }
    {
        &self.name
    }

    /// The same string once more.
    pub fn copy(&self) -> Result<Text, AllocError>
        ensures { IfOk result (λ t. t ≡ self.now) }
    {
        let name = self.name.clone()?;
        Ok(Text { name })
    }
}
