//! Copies of the trees of modules.

use crate::copy::{Copied, copy_list};
use evo_tree::{Form, Item, Module, ModuleTree};
use sqlite_items::Boxed;
use std::alloc::{AllocError, Global};

impl Copied for Form {
    fn copy(&self, alloc: Global) -> Result<Form, AllocError> {
        match self {
            Form::Library(name) => Ok(Form::Library(name.copy(alloc)?)),
            Form::Client => Ok(Form::Client),
            Form::Interface => Ok(Form::Interface),
        }
    }
}

impl Copied for Item {
    fn copy(&self, alloc: Global) -> Result<Item, AllocError> {
        match self {
            Item::Decl(decl) => Ok(Item::Decl(Boxed::new(alloc, decl.get().copy(alloc)?)?)),
            Item::Stmt(stmt) => Ok(Item::Stmt(stmt.copy(alloc)?)),
        }
    }
}

impl Copied for ModuleTree {
    fn copy(&self, alloc: Global) -> Result<ModuleTree, AllocError> {
        Ok(ModuleTree {
            form: self.form.copy(alloc)?,
            name: self.name.copy(alloc)?,
            release: self.release,
            imports: copy_list(alloc, &self.imports)?,
            items: copy_list(alloc, &self.items)?,
        })
    }
}

impl Copied for Module {
    fn copy(&self, alloc: Global) -> Result<Module, AllocError> {
        Ok(Module::of_text(self.tree().copy(alloc)?))
    }
}
