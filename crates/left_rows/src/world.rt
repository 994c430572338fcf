//! What was declared so far, and the left sides of clauses over it.

ghost use Rattle.std.specs.Prelude.{◌<◌, length, IfOk, OnOk};
ghost use Rattle.core_rules.specs.BoundedLaws.{no_solutions};
ghost use Rattle.term_pool.specs.Pool.{Extends, tree};
ghost use Rattle.core_terms.specs.Signature.{Stands, signature_in};
ghost use Rattle.data_rules.specs.Families.{IsFamily};
ghost use Rattle.lhs_rules.specs.Patterns.{LeftOf};
ghost use Rattle.lhs_elab.specs.Answers.{Answers, IsCheckedLeft};

use crate::fault::Fault;
use core_terms::{CheckedLeft, CoreDecl, Limits, NameId, NoSolutions, Signature, TermId, TermPool};
use data_elab::elab_written;
use elab_machine::type_written;
use lhs_elab::{LhsError, left_side};
use scope_check::{
    Resolved, ResolvedClause, ResolvedExpr, ResolvedName, ResolvedSignature, Scope, resolve,
};
use source_tree::Decl;
use std::alloc::Global;

/// What was declared so far. Functions are known by their types.
#[derive(Drop)]
pub struct World {
    pub scope: Scope,
    pub pool: TermPool,
    pub signature: Signature,
    pub limits: Limits,
    pub alloc: Global,
}

impl World {
    /// Nothing is declared.
    pub fn new(alloc: Global, limits: Limits) -> Result<World, Fault>
        ensures { IfOk result (λ w. Stands w.pool w.signature) }
    {
        Ok(World {
            scope: Scope::new(alloc)?,
            pool: TermPool::new(alloc)?,
            signature: Signature::new(alloc)?,
            limits,
            alloc,
        })
    }

    /// The declaration as its names are resolved after those before it.
    pub fn resolve(&mut self, decl: &Decl) -> Result<Resolved, Fault>
        requires { Stands self.old.pool self.old.signature }
        ensures { OnOk result (Stands self.new.pool self.new.signature) }
    {
        Ok(resolve(self.alloc, &mut self.scope, decl)?)
    }

    /// The core term of a type.
    fn ty(&mut self, expr: &ResolvedExpr) -> Result<TermId, Fault>
        requires stands { Stands self.old.pool self.old.signature }
        ensures stands { OnOk result (Stands self.new.pool self.new.signature) }
        ensures ty { IfOk result (λ t. t < length self.new.pool.trees) }
    {
        let (ty, _level) = type_written(
            self.alloc,
            &mut self.pool,
            &self.signature,
            &[],
            expr,
            self.limits,
        )?;
        Ok(ty)
    }

    /// Declares postulates of one type.
    fn postulate(&mut self, names: &[ResolvedName], ty: TermId) -> Result<(), Fault>
        requires stands { Stands self.old.pool self.old.signature }
        requires ty { ty < length self.old.pool.trees }
        ensures { OnOk result (Stands self.new.pool self.new.signature) }
    {
        for name in names {
            self.signature
                .add(CoreDecl::Postulate { name: name.id, ty })?;
        }
        Ok(())
    }

    /// Declares the lines of a block.
    pub fn postulates(&mut self, lines: &[ResolvedSignature]) -> Result<(), Fault>
        requires { Stands self.old.pool self.old.signature }
        ensures { OnOk result (Stands self.new.pool self.new.signature) }
    {
        for line in lines {
            let ty = self.ty(&line.ty)?;
            self.postulate(line.names.as_slice(), ty)?;
        }
        Ok(())
    }

    /// Declares a data type or a record.
    pub fn family(&mut self, decl: &Resolved) -> Result<(), Fault>
        requires stands { Stands self.old.pool self.old.signature }
        requires family { IsFamily decl.now }
        ensures { OnOk result (Stands self.new.pool self.new.signature) }
    {
        let family = elab_written(
            self.alloc,
            &mut self.pool,
            &mut self.signature,
            decl,
            self.limits,
        )?;
        self.signature.add(family)?;
        Ok(())
    }

    /// Declares a function by its type, which it gives.
    pub fn function(&mut self, name: NameId, expr: &ResolvedExpr) -> Result<TermId, Fault>
        requires stands { Stands self.old.pool self.old.signature }
        ensures stands { OnOk result (Stands self.new.pool self.new.signature) }
        ensures ty { IfOk result (λ t. t < length self.new.pool.trees) }
    {
        let ty = self.ty(expr)?;
        self.signature.add_open(name, ty)?;
        Ok(ty)
    }

    /// The left side of a clause of a function of this type.
    pub fn left(&mut self, ty: TermId, clause: &ResolvedClause) -> Result<CheckedLeft, LhsError>
        requires stands { Stands self.old.pool self.old.signature }
        requires ty { ty < length self.old.pool.trees }
        ensures extends { Extends self.old.pool self.new.pool }
        ensures stands { Stands self.new.pool self.new.signature }
        ensures answer { Answers (IsCheckedLeft self.new.pool) self.new.pool (LeftOf (signature_in self.old.pool self.old.signature) no_solutions no_solutions
            self.old.limits.fuel self.old.limits.depth (tree self.old.pool ty) clause.now) result }
    {
        left_side(
            self.alloc,
            &mut self.pool,
            &self.signature,
            &NoSolutions,
            ty,
            clause,
            self.limits,
        )
    }
}
