//! The calls on written expressions.

ghost use Rattle.std.specs.Prelude.{◌≡◌, ◌<◌, length, map, IfOk};
ghost use Rattle.std.specs.List.{AllByRecursion};
ghost use Rattle.term_pool.specs.Pool.{Extends, tree};
ghost use Rattle.core_terms.specs.Signature.{Stands, signature_in};
ghost use Rattle.written_rules.specs.Expressions.{WrittenOf, WrittenTypeOf};
ghost use Rattle.elab_machine.specs.Answers.{AnswersTerm};
ghost use Rattle.elab_machine.specs.Written.{AnswersType, IsSource, outermost, source_values};

use crate::binders::Typed;
use crate::error::WrittenError;
use crate::values::Value;
use crate::writer::Writer;
use core_terms::{Limits, NoMemory, Signature, Solved, TermId, TermPool};
use resolved_tree::ResolvedExpr;
use std::alloc::Global;

/// The values, inside no binder.
fn begun(alloc: Global, values: &[Solved]) -> Result<Vec<Value>, NoMemory>
    ensures { IfOk result (λ v. v.items ≡ map outermost values.now) }
{
    let mut all = Vec::new(alloc);
    for value in values {
        all.push(Value {
            solved: *value,
            inside: 0,
            ty_inside: 0,
        })?;
    }
    Ok(all)
}

/// The core term of an expression at the type `ty`, or why it is refused and where, exactly as the written rules say. `values` has what
/// each source variable in scope stands for, in the order of their binding.
pub fn check_written(
    alloc: Global,
    pool: &mut TermPool,
    sig: &Signature,
    values: &[Solved],
    expr: &ResolvedExpr,
    ty: TermId,
    limits: Limits,
) -> Result<TermId, WrittenError>
    requires stands { Stands pool.old sig.now }
    requires values { AllByRecursion (IsSource (length pool.old.trees)) values.now }
    requires ty { ty < length pool.old.trees }
    ensures extends { Extends pool.old pool.new }
    ensures answer { AnswersTerm pool.new (WrittenOf (signature_in pool.old sig.now) limits.fuel limits.depth
        (source_values pool.old values.now) expr.now (tree pool.old ty)) result }
{
    let mut values = begun(alloc, values)?;
    let mut writer = Writer {
        pool,
        signature: sig,
        values: &mut values,
        inside: 0,
        limits,
        alloc,
    };
    writer.check_expr(expr, ty)
}

/// The core term of an expression that is a type, with the level of its sort, or why it is refused and where, exactly as the written
/// rules say.
pub fn type_written(
    alloc: Global,
    pool: &mut TermPool,
    sig: &Signature,
    values: &[Solved],
    expr: &ResolvedExpr,
    limits: Limits,
) -> Result<(TermId, u32), WrittenError>
    requires stands { Stands pool.old sig.now }
    requires values { AllByRecursion (IsSource (length pool.old.trees)) values.now }
    ensures extends { Extends pool.old pool.new }
    ensures answer { AnswersType pool.new (WrittenTypeOf (signature_in pool.old sig.now) limits.fuel limits.depth
        (source_values pool.old values.now) expr.now) result }
{
    let mut values = begun(alloc, values)?;
    let mut writer = Writer {
        pool,
        signature: sig,
        values: &mut values,
        inside: 0,
        limits,
        alloc,
    };
    let Typed { term, level } = writer.type_expr(expr)?;
    Ok((term, level))
}
