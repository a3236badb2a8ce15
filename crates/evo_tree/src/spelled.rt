//! Modules that some text spells.

ghost use Rattle.std.specs.Prelude.{◌≡◌};
ghost use Rattle.evo_tree.specs.Spelled.{IsSpelled};

use crate::module::ModuleTree;
use std::marker::Model;

/// A module: a tree that some text spells, but for its places. Contracts see it as that tree.
#[derive(Drop)]
pub struct Module {
    tree: ModuleTree,
}

impl Model for Module {
    ghost use Rattle.evo_tree.specs.declared.module.ModuleTree.{ModuleTree};
    ghost use Rattle.evo_tree.specs.contracts.module.ModuleTree as the_tree;
    ghost use Rattle.evo_tree.specs.Spelled.{IsSpelled};

    ghost Value = { ModuleTree };

    ghost coded = { the_tree.the_row.coded };

    ghost view = { λ m. m.tree };

    ghost invariant = { λ m. IsSpelled m.tree };
}

impl Module {
    /// The module of a tree that some text spells, or that is the same but for places as one that some text spells.
    pub fn of_text(tree: ModuleTree) -> Module
        requires { IsSpelled tree }
        ensures { result ≡ tree }
    {
        Module { tree }
    }

    /// The tree of the module, which some text spells but for its places.
    pub fn tree(&self) -> &ModuleTree
        ensures tree { result.now ≡ self.now }
        ensures spelled { IsSpelled self.now }
    {
        &self.tree
    }

    /// The tree of the module.
    pub fn into_tree(self) -> ModuleTree
        ensures { result ≡ self }
    {
        let Module { tree } = self;
        tree
    }
}
