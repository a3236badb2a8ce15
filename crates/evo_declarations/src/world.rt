//! A module with the interface that it imports.

ghost use Rattle.std.specs.Prelude.{◌≡◌};
ghost use Rattle.evo_declarations.specs.Views.{view_of};
ghost use Rattle.evo_declarations.specs.Worlds.{home_of, module_world, world_of};
ghost use Rattle.evo_names.specs.Heads as heads;

use crate::names::Names;
use crate::seen::Viewpoint;

/// A module's declarations, and those of the interface that it imports.
#[derive(Clone, Copy)]
pub struct World<'a> {
    pub own: &'a Names<'a>,
    pub imported: Option<&'a Names<'a>>,
}

/// The module in which something stands.
#[derive(Clone, Copy)]
pub enum Home {
    Own,
    Imported,
}

/// An interface sees itself alone.
pub fn alone<'a>(names: &'a Names<'a>) -> World<'a>
    ensures { world_of result ≡ module_world names.now }
{
    World {
        own: names,
        imported: None,
    }
}

impl<'a> World<'a> {
    /// What the declarations of a module have round them: an interface sees itself alone. Without an import it is the own module's.
    pub fn at(self, home: Home) -> World<'a>
        ensures { world_of result ≡ home_of self.entry home }
    {
        match (home, self.imported) {
            (Home::Imported, Some(names)) => alone(names),
            _ => self,
        }
    }

    /// Where one looks from at the module's top level.
    pub fn top_view(self) -> Viewpoint<'a>
        ensures { view_of result ≡ heads.top_view (world_of self.entry) }
    {
        let own = self.own;
        Viewpoint {
            module: own.listing.name.as_slice(),
            type_round: None,
        }
    }
}
