//! The rule that no declaration is removed, the only one that two interfaces of the first form can break.

ghost use Rattle.std.specs.Prelude.{◌≡◌, IfOk};
ghost use Rattle.evo_base.specs.Names.{AreDistinct};
ghost use Rattle.evo_first_form.specs.Interface.{declared_names};
ghost use Rattle.evo_first_form.specs.Rules.{removed, missing_from as the_missing};

use evo_base::{Name, NameTable};
use evo_first_form::{Declaration, Interface};
use evo_iface::declared_table;
use std::alloc::{AllocError, Global};

// Those of the declared names that the table does not have, in their order.
fn missing_from(
    alloc: Global,
    table: &NameTable,
    declarations: &[Declaration],
) -> Result<Vec<Name>, AllocError>
    ensures { IfOk result (λ missing. missing.items ≡ the_missing table.now (declared_names declarations.now)) }
{
    let mut missing = Vec::new(alloc);
    for declaration in declarations {
        let name = &declaration.name;
        if table.position(name.as_slice()).is_none() {
            missing.push(name.copy(alloc)?)?;
        }
    }
    Ok(missing)
}

/// The functions of the old interface that the new one does not have, in the order of the old one. Only memory
/// can fail.
pub fn breaks(alloc: Global, old: &Interface, new: &Interface) -> Result<Vec<Name>, AllocError>
    requires { AreDistinct (declared_names new.now.functions) }
    ensures { IfOk result (λ missing. missing.items ≡ removed old.now new.now) }
{
    let table = declared_table(alloc, new.functions.as_slice())?;
    missing_from(alloc, &table, old.functions.as_slice())
}
