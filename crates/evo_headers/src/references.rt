//! Names of protocols in headers.

ghost use Rattle.std.specs.Prelude.{◌≡◌, IfOk};
ghost use Rattle.evo_headers.specs.Gaps.{Resolves};
ghost use Rattle.evo_headers.specs.Sites.{IsOwn, site_scope};
ghost use Rattle.evo_headers.specs.Unresolved.{IsNoProtocol, One};
ghost use Rattle.evo_names.specs.Heads.{protocol_named};
ghost use Rattle.evo_names.specs.Resolved.{IsReference, Pairs};

use crate::gap::{Gap, push};
use crate::site::Site;
use evo_base::{Key, List};
use evo_keys::protocol_key;
use evo_resolved::RReference;
use evo_tree::TypeName;
use std::alloc::{AllocError, Global};

fn key_of(alloc: Global, site: Site<'_>, written: &TypeName) -> Result<Option<Key>, AllocError>
    requires { IsOwn site }
    ensures { IfOk result (λ o. o ≡ protocol_named (site_scope site.entry).home written.now) }
{
    let space = site.space;
    let key = protocol_key(alloc, space.world, written)?;
    Ok(key)
}

/// The protocol that is named.
pub(crate) fn protocol_of(
    alloc: Global,
    site: Site<'_>,
    written: &TypeName,
) -> Result<RReference, Gap>
    requires { IsOwn site }
    ensures { Resolves result (IsReference (protocol_named (site_scope site.entry).home) written.now) (IsNoProtocol (site_scope site.entry).home written.now) }
{
    match key_of(alloc, site, written) {
        Ok(Some(key)) => Ok(RReference {
            place: written.place,
            key,
        }),
        Ok(None) => Err(Gap::Unknown),
        Err(_) => Err(Gap::Memory),
    }
}

/// The protocols that are named.
pub(crate) fn protocols_of(
    alloc: Global,
    site: Site<'_>,
    names: &[TypeName],
) -> Result<List<RReference>, Gap>
    requires { IsOwn site }
    ensures { Resolves result (Pairs (IsReference (protocol_named (site_scope site.entry).home)) names.now) (One (IsNoProtocol (site_scope site.entry).home) names.now) }
{
    let mut found = Vec::new(alloc);
    for written in names {
        let reference = protocol_of(alloc, site, written)?;
        push(&mut found, reference)?;
    }
    Ok(List::from_vec(found))
}
