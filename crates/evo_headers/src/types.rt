//! Written types, once their names are resolved.

ghost use Rattle.std.specs.Prelude.{◌≡◌, IfOk};
ghost use Rattle.evo_headers.specs.Gaps.{Resolves};
ghost use Rattle.evo_headers.specs.Owned.{IsFound};
ghost use Rattle.evo_headers.specs.Sites.{IsOwn, site_scope};
ghost use Rattle.evo_headers.specs.Unresolved.{IsVoid, One};
ghost use Rattle.evo_names.specs.Listed.{list_of};
ghost use Rattle.evo_names.specs.Resolved.{Both, IsType};

use crate::gap::Gap;
use crate::owned::{Found, found_of};
use crate::site::Site;
use evo_base::{List, Name};
use evo_resolved::RTypeName;
use evo_tree::TypeName;
use evo_type_names::meaning_by;
use std::alloc::{AllocError, Global};

/// What names mean, or that they mean nothing.
pub(crate) fn meaning<'a>(
    alloc: Global,
    site: Site<'a>,
    names: &'a [Name],
) -> Result<Option<Found>, AllocError>
    requires { IsOwn site }
    ensures { IfOk result (λ o. IsFound (site_scope site.entry) names.now o) }
{
    match meaning_by(alloc, site.space, site.known, site.scope, names)? {
        Some(meaning) => {
            let found = found_of(alloc, &meaning)?;
            Ok(Some(found))
        }
        None => Ok(None),
    }
}

/// A written type, by what it means.
pub(crate) fn type_of(alloc: Global, site: Site<'_>, written: &TypeName) -> Result<RTypeName, Gap>
    requires { IsOwn site }
    ensures { Resolves result (IsType (site_scope site.entry) written.now) (IsVoid (site_scope site.entry) written.now) }
{
    match meaning(alloc, site, written.names.as_slice()) {
        Ok(Some(found)) => Ok(RTypeName {
            place: written.place,
            aliases: List::from_vec(found.aliases),
            ty: found.resolved,
        }),
        Ok(None) => Err(Gap::Unknown),
        Err(_) => Err(Gap::Memory),
    }
}

/// A type that may not be written.
pub(crate) fn type_of_option(
    alloc: Global,
    site: Site<'_>,
    written: &Option<TypeName>,
) -> Result<Option<RTypeName>, Gap>
    requires { IsOwn site }
    ensures { Resolves result (Both (IsType (site_scope site.entry)) written.now) (One (IsVoid (site_scope site.entry)) (list_of written.now)) }
{
    match written {
        Some(written) => {
            let found = type_of(alloc, site, written)?;
            Ok(Some(found))
        }
        None => Ok(None),
    }
}
