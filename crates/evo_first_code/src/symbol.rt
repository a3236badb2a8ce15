ghost use Rattle.std.specs.Prelude.{◌≡◌, IfOk};
ghost use Rattle.evo_first_code.specs.Objects.{symbol_of as the_symbol, copy_symbol as the_copy, client_symbol};

use evo_base::Name;
use evo_code::Symbol;
use evo_copies::View;
use std::alloc::{AllocError, Global};

/// The symbol of a client's top level.
pub const START: &[u8] = b"main#start";

/// The symbol of a library's function: `MODULE.NAME()`.
pub fn symbol_of(alloc: Global, library: &Name, name: &Name) -> Result<Symbol, AllocError>
    ensures { IfOk result (λ s. s ≡ the_symbol library.now name.now) }
{
    let mut bytes = library.as_slice().to_vec(alloc)?;
    bytes.push(b'.')?;
    bytes.extend_from_slice(name.as_slice())?;
    bytes.extend_from_slice(b"()")?;
    Ok(Name::from_vec(bytes))
}

/// The symbol of a client's copy of a function: `MODULE.NAME()#copy`.
pub fn copy_symbol(alloc: Global, library: &Name, name: &Name) -> Result<Symbol, AllocError>
    ensures { IfOk result (λ s. s ≡ the_copy library.now name.now) }
{
    let symbol = symbol_of(alloc, library, name)?;
    let mut bytes = symbol.as_slice().to_vec(alloc)?;
    bytes.extend_from_slice(b"#copy")?;
    Ok(Name::from_vec(bytes))
}

/// The symbol of what code calls, where it copies the functions of this view: its own copy of such a
/// function, and else the library's.
pub fn called_symbol(
    alloc: Global,
    library: &Name,
    view: &View<'_>,
    name: &Name,
) -> Result<Symbol, AllocError>
    ensures { IfOk result (λ s. s ≡ client_symbol library.now view.now name.now) }
{
    if view.copied(name.as_slice()).is_some() {
        copy_symbol(alloc, library, name)
    } else {
        symbol_of(alloc, library, name)
    }
}
