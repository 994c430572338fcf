ghost use Rattle.std.specs.Prelude.{IfOk, IsTrue};
ghost use Rattle.core_terms.specs.Signature.{Stands};
ghost use Rattle.case_terms.specs.Families.{IsFamily};
ghost use Rattle.kernel_cases.specs.Asked.{IsAsked};

use crate::answers::{refusal_words, word};
use case_terms::{
    Fault, are_entries, is_declared_in, is_family_in_scope, is_in, is_in_scope, signature_of,
};
use core_kernel::{FamilyError, KernelError};
use core_terms::{CoreDecl, Limits, Signature, Telescope, TermId, TermPool};
use std::alloc::Global;

/// A pool, and the signature over it. What its calls ask of terms is tested first.
#[derive(Drop)]
pub struct World {
    alloc: Global,
    pub pool: TermPool,
    pub sig: Signature,
}

impl World {
    /// With these declarations.
    pub fn over(alloc: Global, pool: TermPool, decls: Vec<CoreDecl>) -> Result<World, Fault>
        ensures { IfOk result (λ w. Stands w.pool w.sig) }
    {
        let sig = signature_of(alloc, &pool, decls)?;
        Ok(World { alloc, pool, sig })
    }

    /// Whether `t` can be asked about in the context.
    fn is_asked(&self, context: &Telescope, t: TermId) -> Result<bool, Fault>
        ensures { IfOk result (λ b. IsTrue b → IsAsked self.now.pool self.now.sig context.now t) }
    {
        let entries = context.entries.as_slice();
        if !are_entries(&self.pool, entries) {
            return Ok(false);
        }
        is_in_scope(self.alloc, &self.pool, &self.sig, entries.len(), t)
    }

    pub fn infer(
        &mut self,
        context: &Telescope,
        t: TermId,
        limits: Limits,
    ) -> Result<Result<TermId, KernelError>, Fault>
        requires { Stands self.old.pool self.old.sig }
    {
        if !self.is_asked(context, t)? {
            return Err(Fault::Stray);
        }
        Ok(core_kernel::infer(self.alloc, &mut self.pool, &self.sig, context, t, limits))
    }

    pub fn is_type(
        &mut self,
        context: &Telescope,
        t: TermId,
        limits: Limits,
    ) -> Result<Result<u32, KernelError>, Fault>
        requires { Stands self.old.pool self.old.sig }
    {
        if !self.is_asked(context, t)? {
            return Err(Fault::Stray);
        }
        Ok(core_kernel::is_type(self.alloc, &mut self.pool, &self.sig, context, t, limits))
    }

    pub fn check(
        &mut self,
        context: &Telescope,
        t: TermId,
        ty: TermId,
        limits: Limits,
    ) -> Result<Result<(), KernelError>, Fault>
        requires { Stands self.old.pool self.old.sig }
    {
        if !self.is_asked(context, t)? || !is_in(&self.pool, ty) {
            return Err(Fault::Stray);
        }
        Ok(core_kernel::check(
            self.alloc,
            &mut self.pool,
            &self.sig,
            context,
            t,
            ty,
            limits,
        ))
    }

    /// What the kernel says of a family, in words. A function that holds a `FamilyError` without naming it in its signature is one
    /// that the borrow checker cannot read, so the words are made where the answer comes.
    pub fn family_words(&mut self, decl: &CoreDecl, limits: Limits) -> Result<String, Fault>
        requires stands { Stands self.old.pool self.old.sig }
        requires family { IsFamily decl.now }
    {
        if !is_declared_in(&self.pool, decl)
            || !is_family_in_scope(self.alloc, &self.pool, &self.sig, decl)?
        {
            return Err(Fault::Stray);
        }
        match core_kernel::check_family(self.alloc, &mut self.pool, &mut self.sig, decl, limits) {
            Ok(()) => word(self.alloc, "good"),
            Err(FamilyError::Kernel(e)) => refusal_words(self.alloc, &self.pool, e),
            Err(FamilyError::ConShape) => word(self.alloc, "ConShape"),
            Err(FamilyError::TooBig) => word(self.alloc, "TooBig"),
            Err(FamilyError::NoMemory) => Err(Fault::NoMemory),
        }
    }
}
