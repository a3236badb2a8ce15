//! Why a header is not resolved.

ghost use Rattle.std.specs.Prelude.{◌≡◌, ◌++◌, ◌∷◌, [], OnOk};
ghost use Rattle.evo_headers.specs.declared.gap.Gap.TheVariants.{Memory};

use std::alloc::AllocError;

/// Why a part of a header is not resolved.
#[derive(Drop)]
pub enum Gap {
    Memory,
    /// A name of it is none.
    Unknown,
}

impl From<AllocError> for Gap {
    ghost from_gives = { λ _ e. e ≡ Memory };

    fn from(_: AllocError) -> Self {
        Gap::Memory
    }
}

/// Puts a part behind others.
pub(crate) fn push<T: Drop>(parts: &mut Vec<T>, part: T) -> Result<(), AllocError>
    ensures { OnOk result (parts.new.items ≡ parts.old.items ++ part ∷ []) }
{
    parts.push(part)?;
    Ok(())
}
