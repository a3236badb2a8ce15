//! Where types are written, and where names begin.

ghost use Rattle.std.specs.Prelude.{◌≡◌};
ghost use Rattle.evo_declarations.specs.Views.{view_of};
ghost use Rattle.evo_declarations.specs.Worlds.{world_of};
ghost use Rattle.evo_members.specs.Views.{declared_of};
ghost use Rattle.evo_names.specs.Written as written;
ghost use Rattle.evo_type_names.specs.Starts.{scope_of, round_of};
ghost use Rattle.evo_declarations.specs.Views.{types_of};

use crate::scope::Scope;
use evo_base::Name;
use evo_declarations::{TypeId, Viewpoint, World};
use evo_members::{Around, Located};

/// Where names begin.
#[derive(Clone, Copy)]
pub enum Start<'a> {
    Named(TypeId<'a>),
    /// A parameter, by its number.
    Parameter(u32),
    /// An associated type of a parameter.
    Member(u32, &'a Name),
    /// With what is written in a `typealias` or as a default.
    Written(Located<'a>),
}

fn type_round<'a>(around: Around<'a>) -> Option<TypeId<'a>>
    ensures { types_of result ≡ round_of around.entry }
{
    match around {
        Around::Nowhere => None,
        Around::InType(key) => Some(key),
        Around::InProtocol(key, _) => Some(key),
    }
}

impl<'a> Scope<'a> {
    /// Where one looks from.
    pub(crate) fn view(self, world: World<'a>) -> Viewpoint<'a>
        ensures { view_of result ≡ written.view (scope_of world.entry self.entry) }
    {
        let home = world.at(self.home);
        let own = home.own;
        Viewpoint {
            module: own.listing.name.as_slice(),
            type_round: type_round(self.around),
        }
    }
}
