//! The patterns and projections of a clause, one after the other.

ghost use Rattle.std.specs.Prelude.{◌≡◌, ℕ, ◌<◌, Option, Some, None, length, IfOk, IfSome, OnOk};
ghost use Rattle.core_rules.specs.Term.{Term};
ghost use Rattle.core_rules.specs.BoundedLaws.{IsFull};
ghost use Rattle.core_rules.specs.Heads.{Answer};
ghost use Rattle.core_terms.specs.Signature.{field_total, signature_in};
ghost use Rattle.term_pool.specs.Pool.{tree};
ghost use Rattle.weak_head.specs.States.{AppliedBelow, answer_in};
ghost use Rattle.lhs_rules.specs.Patterns.{pattern_meaning};
ghost use Rattle.lhs_rules.specs.Rules.{all_elims, binder_of, most_inserted, one_elim};
ghost use Rattle.lhs_elab.specs.Answers.{Answers};
ghost use Rattle.lhs_elab.specs.Constructors.{IsLeft};
ghost use Rattle.lhs_elab.specs.Elaborator.{IsReady, Grows, Keeps, Comes, left_of, over, signature_of, solved_of, term_of};
ghost use Rattle.lhs_elab.specs.Reading.{AnswersStep, meanings, step_read};
ghost use Rattle.lhs_elab.specs.Walking.{AnswersOther, IsFunction, IsOwn, needed_read, own_at, taken_read};

use crate::due::{Due, what_takes};
use crate::elaborator::{Elaborator, Shown};
use crate::error::LhsError;
use crate::forms::{braces, field_of, how_written, origin, position};
use crate::slots::{misfit, wrong_arity};
use core_rules::Flag;
use core_terms::{FieldId, NameId, NoMemory, Node, Signature, Solutions, TermId, TermPool};
use declared_types::params_for;
use resolved_tree::ResolvedPattern;
use std::alloc::Global;

/// The most patterns that are inserted before one that a clause writes.
const MOST_INSERTED: u32 = 2_000;

/// A function type.
#[derive(Clone, Copy)]
pub(crate) struct Function {
    pub flag: Flag,
    pub name: NameId,
    pub dom: TermId,
    pub cod: TermId,
}

/// What stands next was taken, or a pattern was inserted before it.
#[derive(Clone, Copy)]
pub(crate) enum Step {
    Taken,
    Inserted,
}

/// The function type that a type shows.
fn function_of(pool: &TermPool, shown: &Shown) -> Option<Function>
    requires { AppliedBelow (length pool.now.trees) shown.now.form }
    ensures { IsFunction (length pool.now.trees) (tree pool.now) (answer_in (tree pool.now) shown.now.meta shown.now.form) result }
{
    if shown.meta.is_some() {
        return None;
    }
    if !shown.form.spine.is_empty() {
        return None;
    }
    match pool.node(shown.form.head) {
        Node::Pi {
            flag,
            name,
            dom,
            cod,
        } => Some(Function {
            flag,
            name,
            dom,
            cod,
        }),
        _ => None,
    }
}

/// The parameters of the record that a type shows, where the field is its own.
fn own_params(
    alloc: Global,
    pool: &TermPool,
    sig: &Signature,
    shown: &Shown,
    field: FieldId,
) -> Result<Option<Vec<TermId>>, NoMemory>
    requires { AppliedBelow (length pool.now.trees) shown.now.form }
    ensures field { IfOk result (λ o. IfSome o (λ v. field < field_total sig.now)) }
    ensures is { IfOk result (IsOwn pool.now
        (own_at (signature_in pool.now sig.now) (answer_in (tree pool.now) shown.now.meta shown.now.form) field)) }
{
    if shown.meta.is_some() {
        return Ok(None);
    }
    if field.number() >= sig.fields() {
        return Ok(None);
    }
    let Node::Fam(fam) = pool.node(shown.form.head) else {
        return Ok(None);
    };
    let (of, _) = sig.field(field);
    if of.number() != fam.number() {
        return Ok(None);
    }
    params_for(alloc, &sig.fam(of).decl, shown.form.spine.as_slice())
}

impl<'a, S: Solutions> Elaborator<'a, S> {
    /// A pattern for the variable of a function type.
    fn take_pattern(
        &mut self,
        pattern: &ResolvedPattern,
        function: Function,
    ) -> Result<(), LhsError>
        requires ready { IsReady S.solution self.old }
        requires dom { function.dom < length self.old.pool.now.trees }
        requires cod { function.cod < length self.old.pool.now.trees }
        ensures grows { Grows self.old self.new }
        ensures keeps { Keeps self.old self.new }
        ensures ready { OnOk result (IsReady S.solution self.new) }
        ensures is { (f : ℕ → Option Term) (w : Answer) → IsFull (solved_of S.solution self.old) f → binder_of w ≡ function.name
            → Answers (IsLeft self.new) self.new.pool.now (Comes (over S.solution f self.old)
            (taken_read (pattern_meaning (signature_of self.old) self.old.function pattern.now) (left_of self.old) function.flag w
            (term_of self.old function.dom) (term_of self.old function.cod))) result }
    {
        let Ok(number) = u32::try_from(self.left.spots.len()) else {
            return Err(LhsError::NoMemory);
        };
        let from = origin(pattern);
        self.take(
            function.flag,
            function.name,
            function.dom,
            function.cod,
            &from,
        )?;
        let shape = self.visit(pattern, number)?;
        Ok(self.with_pat(shape, from, braces(pattern))?)
    }

    /// What stands next, for a function type, or a pattern that is inserted before it.
    fn step_function(
        &mut self,
        pattern: &ResolvedPattern,
        function: Function,
    ) -> Result<Step, LhsError>
        requires ready { IsReady S.solution self.old }
        requires dom { function.dom < length self.old.pool.now.trees }
        requires cod { function.cod < length self.old.pool.now.trees }
        ensures grows { Grows self.old self.new }
        ensures keeps { Keeps self.old self.new }
        ensures ready { OnOk result (IsReady S.solution self.new) }
        ensures is { (f : ℕ → Option Term) (w : Answer) → IsFull (solved_of S.solution self.old) f
            → IsFunction (length self.old.pool.now.trees) (term_of self.old) w (Some function)
            → AnswersStep (over S.solution f self.old) self.new
            (needed_read (signature_of self.old) self.old.function
            (pattern_meaning (signature_of self.old) self.old.function pattern.now) (left_of self.old) w) result }
    {
        match what_takes(function.flag, function.name, how_written(pattern)) {
            Due::Takes => {
                self.take_pattern(pattern, function)?;
                Ok(Step::Taken)
            }
            Due::Inserts => {
                self.insert(function.name, function.dom, function.cod)?;
                Ok(Step::Inserted)
            }
            Due::Refuses => Err(misfit(position(pattern), pattern)),
        }
    }

    /// What stands next, for a type that is no function type.
    fn step_other(&mut self, pattern: &ResolvedPattern, shown: &Shown) -> Result<(), LhsError>
        requires ready { IsReady S.solution self.old }
        requires form { AppliedBelow (length self.old.pool.now.trees) shown.now.form }
        ensures grows { Grows self.old self.new }
        ensures keeps { Keeps self.old self.new }
        ensures ready { OnOk result (IsReady S.solution self.new) }
        ensures is { (f : ℕ → Option Term) → IsFull (solved_of S.solution self.old) f
            → IsFunction (length self.old.pool.now.trees) (term_of self.old) (answer_in (term_of self.old) shown.now.meta shown.now.form) None
            → AnswersOther (over S.solution f self.old) self.new (needed_read (signature_of self.old) self.old.function
            (pattern_meaning (signature_of self.old) self.old.function pattern.now) (left_of self.old)
            (answer_in (term_of self.old) shown.now.meta shown.now.form)) result }
    {
        let Some(field) = field_of(pattern) else {
            return Err(misfit(position(pattern), pattern));
        };
        let found = own_params(self.alloc, self.pool, self.signature, shown, field)?;
        let Some(params) = found else {
            return Err(misfit(position(pattern), pattern));
        };
        Ok(self.project(field, params)?)
    }

    /// What stands next, or a pattern that is inserted before it.
    fn step(&mut self, pattern: &ResolvedPattern) -> Result<Step, LhsError>
        requires ready { IsReady S.solution self.old }
        ensures grows { Grows self.old self.new }
        ensures keeps { Keeps self.old self.new }
        ensures ready { OnOk result (IsReady S.solution self.new) }
        ensures is { (f : ℕ → Option Term) → IsFull (solved_of S.solution self.old) f
            → AnswersStep (over S.solution f self.old) self.new (step_read (signature_of self.old) self.old.function
            (pattern_meaning (signature_of self.old) self.old.function pattern.now) (left_of self.old)) result }
    {
        let ty = self.left.ty;
        let shown = self.shows(position(pattern), ty)?;
        match function_of(self.pool, &shown) {
            Some(function) => self.step_function(pattern, function),
            None => {
                self.step_other(pattern, &shown)?;
                Ok(Step::Taken)
            }
        }
    }

    /// What stands next, and the patterns that are inserted before it.
    fn one_elim(&mut self, pattern: &ResolvedPattern) -> Result<(), LhsError>
        requires ready { IsReady S.solution self.old }
        ensures grows { Grows self.old self.new }
        ensures keeps { Keeps self.old self.new }
        ensures ready { OnOk result (IsReady S.solution self.new) }
        ensures is { (f : ℕ → Option Term) → IsFull (solved_of S.solution self.old) f
            → Answers (IsLeft self.new) self.new.pool.now (Comes (over S.solution f self.old) (one_elim (signature_of self.old) self.old.function
            (pattern_meaning (signature_of self.old) self.old.function pattern.now) most_inserted (left_of self.old))) result }
    {
        let mut room = MOST_INSERTED;
        'inserting: while let Step::Inserted = self.step(pattern)? {
            if room == 0 {
                return Err(wrong_arity(position(pattern)));
            }
            room -= 1;
        }
        Ok(())
    }

    /// All that the clause writes, in order.
    pub(crate) fn all_elims(&mut self, patterns: &[ResolvedPattern]) -> Result<(), LhsError>
        requires ready { IsReady S.solution self.old }
        ensures grows { Grows self.old self.new }
        ensures keeps { Keeps self.old self.new }
        ensures ready { OnOk result (IsReady S.solution self.new) }
        ensures is { (f : ℕ → Option Term) → IsFull (solved_of S.solution self.old) f
            → Answers (IsLeft self.new) self.new.pool.now (Comes (over S.solution f self.old)
            (all_elims (signature_of self.old) self.old.function (meanings self.old patterns.now) (left_of self.old))) result }
    {
        let mut left = patterns;
        while let [pattern, more @ ..] = left {
            self.one_elim(pattern)?;
            left = more;
        }
        Ok(())
    }
}
