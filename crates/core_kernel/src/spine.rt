//! A function at many arguments. Its type is kept under the arguments that were taken, and put together once.

ghost use Rattle.std.specs.Prelude.{◌≡◌, ◌<◌, ◌≤◌, ◌-◌, length, map, take, drop, IfOk, OnOk};
ghost use Rattle.std.specs.List.{AllByRecursion};
ghost use Rattle.term_pool.specs.Pool.{StandsFor};
ghost use Rattle.core_rules.specs.Term.{Term};
ghost use Rattle.kernel_rules.specs.Outcome.{Gives};
ghost use Rattle.core_kernel.specs.Answers.{AnswersTerm};
ghost use Rattle.core_kernel.specs.Checker.{IsReady, IsTerm, Grows, Keeps, Infers, ShowsParts, over, term_of};
ghost use Rattle.core_kernel.specs.Spine.{IsSpine, AnswersFunction, filled_in, unwound};

use crate::checker::Checker;
use crate::error::KernelError;
use core_rules::Flag;
use core_terms::{NoMemory, Node, TermId, TermPool, fill};
use declared_types::same_flag;
use std::alloc::Global;

/// An argument, and how it is given.
#[derive(Clone, Copy)]
pub(crate) struct Argument {
    pub flag: Flag,
    pub term: TermId,
}

/// A function with its arguments, the last one first; `terms` has the terms of these.
#[derive(Drop)]
pub(crate) struct Spine {
    pub head: TermId,
    pub arguments: Vec<Argument>,
    pub terms: Vec<TermId>,
}

/// A function type that stands under arguments: its domain put together, and its codomain, which stands under `under` of
/// these arguments.
#[derive(Clone, Copy)]
pub(crate) struct Function {
    pub dom: TermId,
    pub cod: TermId,
    pub under: usize,
}

/// The function that `fun` begins with, at the arguments of `fun` and at the last one, `arg`.
pub(crate) fn take_apart(
    alloc: Global,
    pool: &TermPool,
    flag: Flag,
    fun: TermId,
    arg: TermId,
) -> Result<Spine, NoMemory>
    requires fun { fun < length pool.now.trees }
    requires arg { arg < length pool.now.trees }
    ensures { IfOk result (λ s. IsSpine pool.now flag fun arg s) }
{
    let mut head = fun;
    let mut arguments = Vec::new(alloc);
    let mut terms = Vec::new(alloc);
    arguments.push(Argument { flag, term: arg })?;
    terms.push(arg)?;
    while let Node::App {
        flag: before,
        fun: inner,
        arg: given,
    } = pool.node(head)
    {
        arguments.push(Argument {
            flag: before,
            term: given,
        })?;
        terms.push(given)?;
        head = inner;
    }
    Ok(Spine {
        head,
        arguments,
        terms,
    })
}

/// The items from `start` on, before `end`.
pub(crate) fn between(terms: &[TermId], start: usize, end: usize) -> &[TermId]
    requires start { start ≤ end }
    requires end { end ≤ length terms.now }
    ensures { result.now ≡ take (end - start) (drop start terms.now) }
{
    &terms[start..end]
}

impl<'a> Checker<'a> {
    /// A term that stands under arguments, with these put in.
    fn put_together(&mut self, t: TermId, taken: &[TermId]) -> Result<TermId, NoMemory>
        requires t { t < length self.old.pool.now.trees }
        requires taken { AllByRecursion (λ t. t < length self.old.pool.now.trees) taken.now }
        ensures grows { Grows self.old self.new }
        ensures keeps { Keeps self.old self.new }
        ensures is { IfOk result (λ r. StandsFor self.new.pool.now r (filled_in self.old.pool.now taken.now t)) }
    {
        fill(self.alloc, self.pool, t, taken)
    }

    /// What `ty`, which stands under the arguments taken (the last one first), shows to an argument that is given in this way. A
    /// function type needs no head form, and then only its domain is put together.
    pub(crate) fn function_under(
        &mut self,
        flag: Flag,
        ty: TermId,
        taken: &[TermId],
    ) -> Result<Function, KernelError>
        requires ready { IsReady self.old }
        requires ty { ty < length self.old.pool.now.trees }
        requires taken { AllByRecursion (λ t. t < length self.old.pool.now.trees) taken.now }
        ensures grows { Grows self.old self.new }
        ensures keeps { Keeps self.old self.new }
        ensures is { AnswersFunction self.new.pool.now taken.now
            (ShowsParts (over self.old) flag (filled_in self.old.pool.now taken.now ty)) result }
    {
        if let Node::Pi {
            flag: other,
            dom,
            cod,
            ..
        } = self.pool.node(ty)
        {
            if same_flag(flag, other) {
                let dom = self.put_together(dom, taken)?;
                let under = taken.len();
                return Ok(Function { dom, cod, under });
            }
            let ty = self.put_together(ty, taken)?;
            return Err(KernelError::NotAFunction { ty });
        }
        let whole = self.put_together(ty, taken)?;
        let parts = self.parts_by(flag, whole)?;
        Ok(Function {
            dom: parts.dom,
            cod: parts.cod,
            under: 0,
        })
    }

    /// The type of a function, whose own type is `ty`, at arguments, the last one first; `terms` has the terms of these.
    #[cycle(kernel)]
    pub(crate) fn at_arguments(
        &mut self,
        ty: TermId,
        mut arguments: Vec<Argument>,
        terms: &[TermId],
    ) -> Result<TermId, KernelError>
        requires ready { IsReady self.old }
        requires ty { ty < length self.old.pool.now.trees }
        requires arguments { AllByRecursion (λ a. IsTerm self.old a.term) arguments.items }
        requires terms { terms.now ≡ map (λ a. a.term) arguments.items }
        ensures same_reference { self.new.pool.ghost_name ≡ self.old.pool.ghost_name }
        ensures grows { Grows self.old self.new }
        ensures keeps { OnOk result (Keeps self.old self.new) }
        ensures is { (h : Term) → Infers (over self.old) h (Gives (term_of self.old ty))
            → AnswersTerm self.new.pool.now (Infers (over self.old) (unwound (term_of self.old) h arguments.items)) result }
    {
        let mut ty = ty;
        let mut end = terms.len();
        while let Some(next) = arguments.pop() {
            let start = arguments.len() + 1;
            let taken = between(terms, start, end);
            let function = self.function_under(next.flag, ty, taken)?;
            self.check(next.term, function.dom)?;
            ty = function.cod;
            end = start + function.under;
        }
        Ok(self.put_together(ty, between(terms, 0, end))?)
    }
}
