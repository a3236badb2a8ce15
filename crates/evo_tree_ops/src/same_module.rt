//! Modules that are the same but for places.

ghost use Rattle.std.specs.Prelude.{◌≡◌, ◌↔◌, IsTrue};
ghost use Rattle.evo_tree.specs.Bare.{Same, bare_item};

use crate::compared::{Compared, both, same_list};
use evo_base::Release;
use evo_tree::{Form, Item, Module, ModuleTree};

fn same_form(a: &Form, b: &Form) -> bool
    ensures { IsTrue result ↔ (a.now ≡ b.now) }
{
    match a {
        Form::Library(n) => match b {
            Form::Library(m) => n.same(m),
            _ => false,
        },
        Form::Client => match b {
            Form::Client => true,
            _ => false,
        },
        Form::Interface => match b {
            Form::Interface => true,
            _ => false,
        },
    }
}

fn same_release(a: Option<Release>, b: Option<Release>) -> bool
    ensures { IsTrue result ↔ (a ≡ b) }
{
    a == b
}

fn same_item(a: &Item, b: &Item) -> bool
    ensures { IsTrue result ↔ (bare_item a.now ≡ bare_item b.now) }
{
    match a {
        Item::Decl(x) => match b {
            Item::Decl(y) => x.get().same(y.get()),
            _ => false,
        },
        Item::Stmt(x) => match b {
            Item::Stmt(y) => x.same(y),
            _ => false,
        },
    }
}

impl Compared for Item {
    ghost bare = { bare_item };

    fn same(&self, other: &Item) -> bool {
        same_item(self, other)
    }
}

/// Whether both trees are the same but for places. It takes no memory.
pub fn same_tree(a: &ModuleTree, b: &ModuleTree) -> bool
    ensures { IsTrue result ↔ Same a.now b.now }
{
    both(
        both(
            same_form(&a.form, &b.form),
            both(a.name.same(&b.name), same_release(a.release, b.release)),
        ),
        both(
            same_list(&a.imports, &b.imports),
            same_list(&a.items, &b.items),
        ),
    )
}

/// Whether both modules are the same but for places. It takes no memory.
pub fn same(a: &Module, b: &Module) -> bool
    ensures { IsTrue result ↔ Same a.now b.now }
{
    same_tree(a.tree(), b.tree())
}
