//! The calls of the kernel on terms.

ghost use Rattle.std.specs.Prelude.{◌<◌, length, IfOk};
ghost use Rattle.core_rules.specs.Term.{Sort};
ghost use Rattle.core_rules.specs.Mapped.{AllEntries};
ghost use Rattle.core_rules.specs.InScope.{InScope, any_meta};
ghost use Rattle.core_rules.specs.TreeLaws.{IsSound};
ghost use Rattle.core_rules.specs.Typing.{Typing};
ghost use Rattle.term_pool.specs.Pool.{Extends, tree};
ghost use Rattle.core_terms.specs.Signature.{Stands, signature_in};
ghost use Rattle.kernel_rules.specs.TermReading.{InferOf, IsTypeOf, CheckOf};
ghost use Rattle.core_kernel.specs.Answers.{Answers, AnswersTerm};
ghost use Rattle.core_kernel.specs.Checker.{context_in};

use crate::checker::Checker;
use crate::error::KernelError;
use core_terms::{Limits, Signature, Telescope, TermId, TermPool};
use std::alloc::Global;

/// The type of `t` in a context, or why it is refused, exactly as the kernel's reading says. The context and `t` are in scope. Over a sound
/// signature, `t` has this type by the rules.
pub fn infer(
    alloc: Global,
    pool: &mut TermPool,
    sig: &Signature,
    context: &Telescope,
    t: TermId,
    limits: Limits,
) -> Result<TermId, KernelError>
    requires stands { Stands pool.old sig.now }
    requires context { AllEntries (λ t. t < length pool.old.trees) context.now }
    requires t { t < length pool.old.trees }
    requires scope { InScope (signature_in pool.old sig.now) any_meta (length context.now) (tree pool.old t) }
    ensures extends { Extends pool.old pool.new }
    ensures answer { AnswersTerm pool.new (InferOf (signature_in pool.old sig.now) limits.fuel limits.depth
        (context_in pool.old context.now) (tree pool.old t)) result }
    ensures typed { IfOk result (λ a. IsSound (signature_in pool.old sig.now)
        → Typing (signature_in pool.old sig.now) (context_in pool.old context.now) (tree pool.old t) (tree pool.new a)) }
{
    let mut context = Vec::from_slice(alloc, context.entries.as_slice())?;
    let mut checker = Checker {
        pool,
        signature: sig,
        context: &mut context,
        limits,
        alloc,
    };
    checker.infer(t)
}

/// Whether `t` has the type `ty` in a context, or why it is refused, exactly as the kernel's reading says.
pub fn check(
    alloc: Global,
    pool: &mut TermPool,
    sig: &Signature,
    context: &Telescope,
    t: TermId,
    ty: TermId,
    limits: Limits,
) -> Result<(), KernelError>
    requires stands { Stands pool.old sig.now }
    requires context { AllEntries (λ t. t < length pool.old.trees) context.now }
    requires t { t < length pool.old.trees }
    requires scope { InScope (signature_in pool.old sig.now) any_meta (length context.now) (tree pool.old t) }
    requires ty { ty < length pool.old.trees }
    ensures extends { Extends pool.old pool.new }
    ensures answer { Answers pool.new (CheckOf (signature_in pool.old sig.now) limits.fuel limits.depth
        (context_in pool.old context.now) (tree pool.old t) (tree pool.old ty)) result }
    ensures typed { IfOk result (λ o. IsSound (signature_in pool.old sig.now)
        → Typing (signature_in pool.old sig.now) (context_in pool.old context.now) (tree pool.old t) (tree pool.old ty)) }
{
    let mut context = Vec::from_slice(alloc, context.entries.as_slice())?;
    let mut checker = Checker {
        pool,
        signature: sig,
        context: &mut context,
        limits,
        alloc,
    };
    checker.check(t, ty)
}

/// The level of the type `t` in a context, or why it is refused, exactly as the kernel's reading says.
pub fn is_type(
    alloc: Global,
    pool: &mut TermPool,
    sig: &Signature,
    context: &Telescope,
    t: TermId,
    limits: Limits,
) -> Result<u32, KernelError>
    requires stands { Stands pool.old sig.now }
    requires context { AllEntries (λ t. t < length pool.old.trees) context.now }
    requires t { t < length pool.old.trees }
    requires scope { InScope (signature_in pool.old sig.now) any_meta (length context.now) (tree pool.old t) }
    ensures extends { Extends pool.old pool.new }
    ensures answer { Answers pool.new (IsTypeOf (signature_in pool.old sig.now) limits.fuel limits.depth
        (context_in pool.old context.now) (tree pool.old t)) result }
    ensures typed { IfOk result (λ n. IsSound (signature_in pool.old sig.now)
        → Typing (signature_in pool.old sig.now) (context_in pool.old context.now) (tree pool.old t) (Sort n)) }
{
    let mut context = Vec::from_slice(alloc, context.entries.as_slice())?;
    let mut checker = Checker {
        pool,
        signature: sig,
        context: &mut context,
        limits,
        alloc,
    };
    checker.level(t)
}
