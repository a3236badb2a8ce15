//! The lists of a module in which a key is found. Contracts see each as the list.

ghost use Rattle.std.specs.Prelude.{◌≡◌, IfOk, MatchOption};
ghost use Rattle.evo_resolved.specs.Found.{IsFound};
ghost use Rattle.evo_resolved.specs.Named.{body_key, conformance_key, decl_key, is_body, is_conformance, is_declared};
ghost use Rattle.evo_resolved.specs.declared.body.RBody.{RBody};
ghost use Rattle.evo_resolved.specs.declared.declaration.RDecl.{RDecl};
ghost use Rattle.evo_resolved.specs.declared.module.RConformance.{RConformance};

use crate::body::RBody;
use crate::declaration::{RDecl, RDeclKind};
use crate::keyed::{KeyIndex, Keyed, find_in, index_of};
use crate::module::RConformance;
use evo_base::{Key, List};
use std::alloc::{AllocError, Global};
use std::marker::Model;

impl Keyed for RDecl {
    ghost use Rattle.evo_resolved.specs.Named.{decl_key, is_declared};

    ghost own = { decl_key };

    ghost is_named = { is_declared };

    fn key(&self) -> &Key {
        &self.own
    }

    fn has_name(&self) -> bool {
        match &self.kind {
            RDeclKind::Extension(_, _, _) => false,
            _ => true,
        }
    }
}

/// Declarations, each under its own key. What an extension extends is found under the key, and the extension is not.
#[derive(Drop)]
pub struct Decls {
    items: List<RDecl>,
    index: KeyIndex,
}

impl Model for Decls {
    ghost use Rattle.std.specs.Prelude.{List, length};
    ghost use Rattle.evo_resolved.specs.Indexed.{Indexed};
    ghost use Rattle.evo_resolved.specs.Named.{decl_key};
    ghost use Rattle.evo_resolved.specs.declared.declaration.RDecl.{RDecl};

    ghost Value = { List RDecl };

    ghost view = { λ it. it.items };

    ghost invariant = { λ it. Indexed decl_key it.items (length it.items) it.index };
}

impl Decls {
    /// The declarations of this list.
    pub fn new(alloc: Global, items: List<RDecl>) -> Result<Decls, AllocError>
        ensures { IfOk result (λ decls. decls ≡ items) }
    {
        let index = index_of(alloc, items.as_slice())?;
        Ok(Decls { items, index })
    }

    /// The declarations, in their order.
    pub fn as_slice(&self) -> &[RDecl]
        ensures { result.now ≡ self.now }
    {
        self.items.as_slice()
    }

    /// The declaration that a key names; nothing exactly where it names none.
    pub fn find(&self, key: &Key) -> Option<&RDecl>
        ensures { MatchOption result ((d : RDecl) → IsFound decl_key is_declared self.now key.now d → ⊥) (λ d. IsFound decl_key is_declared self.now key.now d.now) }
    {
        find_in(self.items.as_slice(), &self.index, key)
    }
}

impl Keyed for RBody {
    ghost use Rattle.evo_resolved.specs.Named.{body_key, is_body};

    ghost own = { body_key };

    ghost is_named = { is_body };

    fn key(&self) -> &Key {
        &self.owner
    }

    fn has_name(&self) -> bool {
        true
    }
}

/// Bodies, each under the key of its owner.
#[derive(Drop)]
pub struct Bodies {
    items: List<RBody>,
    index: KeyIndex,
}

impl Model for Bodies {
    ghost use Rattle.std.specs.Prelude.{List, length};
    ghost use Rattle.evo_resolved.specs.Indexed.{Indexed};
    ghost use Rattle.std.specs.Coded.{coded_list};
    ghost use Rattle.evo_resolved.specs.Named.{body_key};
    ghost use Rattle.evo_resolved.specs.contracts.body.RBody as the_body;
    ghost use Rattle.evo_resolved.specs.declared.body.RBody.{RBody};

    ghost Value = { List RBody };

    ghost coded = { coded_list the_body.the_row.coded };

    ghost view = { λ it. it.items };

    ghost invariant = { λ it. Indexed body_key it.items (length it.items) it.index };
}

impl Bodies {
    /// The bodies of this list.
    pub fn new(alloc: Global, items: List<RBody>) -> Result<Bodies, AllocError>
        ensures { IfOk result (λ bodies. bodies ≡ items) }
    {
        let index = index_of(alloc, items.as_slice())?;
        Ok(Bodies { items, index })
    }

    /// The bodies, in their order.
    pub fn as_slice(&self) -> &[RBody]
        ensures { result.now ≡ self.now }
    {
        self.items.as_slice()
    }

    /// The body of an owner; nothing exactly where there is none.
    pub fn find(&self, key: &Key) -> Option<&RBody>
        ensures { MatchOption result ((d : RBody) → IsFound body_key is_body self.now key.now d → ⊥) (λ d. IsFound body_key is_body self.now key.now d.now) }
    {
        find_in(self.items.as_slice(), &self.index, key)
    }
}

impl Keyed for RConformance {
    ghost use Rattle.evo_resolved.specs.Named.{conformance_key, is_conformance};

    ghost own = { conformance_key };

    ghost is_named = { is_conformance };

    fn key(&self) -> &Key {
        &self.key
    }

    fn has_name(&self) -> bool {
        true
    }
}

/// Declared conformances, each under its key.
#[derive(Drop)]
pub struct Conformances {
    items: List<RConformance>,
    index: KeyIndex,
}

impl Model for Conformances {
    ghost use Rattle.std.specs.Prelude.{List, length};
    ghost use Rattle.evo_resolved.specs.Indexed.{Indexed};
    ghost use Rattle.evo_resolved.specs.Named.{conformance_key};
    ghost use Rattle.evo_resolved.specs.declared.module.RConformance.{RConformance};

    ghost Value = { List RConformance };

    ghost view = { λ it. it.items };

    ghost invariant = { λ it. Indexed conformance_key it.items (length it.items) it.index };
}

impl Conformances {
    /// The conformances of this list.
    pub fn new(alloc: Global, items: List<RConformance>) -> Result<Conformances, AllocError>
        ensures { IfOk result (λ conformances. conformances ≡ items) }
    {
        let index = index_of(alloc, items.as_slice())?;
        Ok(Conformances { items, index })
    }

    /// The conformances, in their order.
    pub fn as_slice(&self) -> &[RConformance]
        ensures { result.now ≡ self.now }
    {
        self.items.as_slice()
    }

    /// The conformance that a key names; nothing exactly where it names none.
    pub fn find(&self, key: &Key) -> Option<&RConformance>
        ensures { MatchOption result ((d : RConformance) → IsFound conformance_key is_conformance self.now key.now d → ⊥) (λ d. IsFound conformance_key is_conformance self.now key.now d.now) }
    {
        find_in(self.items.as_slice(), &self.index, key)
    }
}
