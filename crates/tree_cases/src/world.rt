ghost use Rattle.std.specs.Prelude.{IfOk, OnOk};
ghost use Rattle.core_terms.specs.Signature.{Stands};
ghost use Rattle.case_terms.specs.Families.{IsShaped};

use crate::answers::{Given, ids_words, refusal_words, word};
use case_terms::{Fault, is_decl_in_scope, is_in, is_tree_in_scope};
use core_terms::{CoreDecl, Limits, NameId, Signature, TermId, TermPool, Tree};
use std::alloc::Global;
use tree_kernel::{check_decl, check_tree};

/// A pool, and the signature over it. What the calls ask of terms is tested first.
#[derive(Drop)]
pub struct World {
    alloc: Global,
    pub pool: TermPool,
    pub sig: Signature,
}

impl World {
    /// Without declarations.
    pub fn new(alloc: Global) -> Result<World, Fault>
        ensures { IfOk result (λ w. Stands w.pool w.sig) }
    {
        Ok(World {
            alloc,
            pool: TermPool::new(alloc)?,
            sig: Signature::new(alloc)?,
        })
    }

    /// What the kernel says of a declaration: the ids that it has got, or why it is refused.
    pub fn declare(&mut self, decl: CoreDecl, limits: Limits) -> Result<String, Fault>
        requires stands { Stands self.old.pool self.old.sig }
        requires shape { IsShaped decl }
        ensures { OnOk result (Stands self.new.pool self.new.sig) }
    {
        let alloc = self.alloc;
        if !is_decl_in_scope(alloc, &self.pool, &mut self.sig, &decl)? {
            return Err(Fault::Stray);
        }
        let before = Given::by(&self.sig);
        match check_decl(alloc, &mut self.pool, &mut self.sig, decl, limits) {
            Ok(()) => ids_words(alloc, before, Given::by(&self.sig)),
            Err(e) => refusal_words(alloc, &self.pool, e),
        }
    }

    /// What the kernel says of a case tree of a function that has this type. The function is then forgotten.
    pub fn tree_words(&mut self, ty: TermId, tree: &Tree, limits: Limits) -> Result<String, Fault>
        requires { Stands self.old.pool self.old.sig }
        ensures { OnOk result (Stands self.new.pool self.new.sig) }
    {
        if !is_in(&self.pool, ty) {
            return Err(Fault::Stray);
        }
        let mark = self.sig.mark();
        let function = self.sig.add_open(NameId::new(0), ty)?;
        if !is_tree_in_scope(self.alloc, &self.pool, &self.sig, tree)? {
            return Err(Fault::Stray);
        }
        let answer = check_tree(
            self.alloc,
            &mut self.pool,
            &self.sig,
            function,
            ty,
            tree,
            limits,
        );
        self.sig.cut(mark);
        match answer {
            Ok(()) => word(self.alloc, "yes"),
            Err(e) => refusal_words(self.alloc, &self.pool, e),
        }
    }
}
