ghost use Rattle.std.specs.Prelude.{◌≡◌, IfOk};
ghost use Rattle.evo_base.specs.Names.{AreDistinct};
ghost use Rattle.evo_first_form.specs.Interface.{declared_names};

use evo_base::NameTable;
use evo_first_form::Declaration;
use std::alloc::{AllocError, Global};

/// The declared names with their places, where they are distinct. Only memory can fail.
pub fn declared_table(alloc: Global, declarations: &[Declaration]) -> Result<NameTable, AllocError>
    requires { AreDistinct (declared_names declarations.now) }
    ensures { IfOk result (λ table. table ≡ declared_names declarations.now) }
{
    let mut table = NameTable::new(alloc);
    for declaration in declarations {
        let _new = table.insert(alloc, declaration.name.as_slice())?;
    }
    Ok(table)
}
