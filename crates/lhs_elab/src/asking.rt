//! The context and the equations of a constructor for a variable, and what the unifier says of them.

ghost use Rattle.std.specs.Prelude.{◌≡◌, ℕ, ◌<◌, ◌≤◌, ◌+◌, ◌-◌, Option, length, take, drop, IfOk};
ghost use Rattle.std.specs.List.{AllByRecursion};
ghost use Rattle.core_rules.specs.Term.{Term};
ghost use Rattle.core_rules.specs.BoundedLaws.{IsFull};
ghost use Rattle.core_rules.specs.Mapped.{AllCon, AllEntries, con_map, telescope_map};
ghost use Rattle.core_rules.specs.TypedTree.{Splitting, con_context as context_of, index_equations as equations_of};
ghost use Rattle.term_pool.specs.Pool.{tree};
ghost use Rattle.index_unify.specs.Unified.{EquationStands, IsAnswered, context_in, equations_in};
ghost use Rattle.lhs_rules.specs.Rules.{refuted, unified};
ghost use Rattle.lhs_elab.specs.Answers.{Answers};
ghost use Rattle.lhs_elab.specs.Asked.{IsNothing, IsOpened, IsSplit, UnifiedBelow, Unifies};
ghost use Rattle.lhs_elab.specs.Branches.{IsBranch};
ghost use Rattle.lhs_elab.specs.Elaborator.{IsReady, Grows, Keeps, Comes, over, solved_of};

use crate::elaborator::Elaborator;
use crate::equations::index_equations;
use crate::error::{LhsError, LhsKind, refused};
use crate::families::{AtFamily, arguments_of, ends_of};
use crate::opening::con_context;
use crate::vars::reversed;
use core_terms::{Branch, ConDecl, ConId, Entry, NoMemory, Solutions, Telescope, TermId};
use el_outside::Pos;
use index_unify::{Equation, Unified, unify};

/// A constructor's context, and the branch that its equations leave of it.
#[derive(Drop)]
pub(crate) struct Opened {
    pub context: Telescope,
    pub branch: Branch,
}

/// The entries outside a variable.
fn outside(entries: &[Entry], level: u32) -> &[Entry]
    requires { level ≤ length entries.now }
    ensures { result.now ≡ take level entries.now }
{
    &entries[..level as usize]
}

/// The entries inside a variable.
fn inside(entries: &[Entry], level: u32) -> &[Entry]
    requires { level ≤ length entries.now }
    ensures { result.now ≡ drop (level + 1) entries.now }
{
    let start = level as usize;
    if start < entries.len() {
        &entries[start + 1..]
    } else {
        &[]
    }
}

/// The parameters of a family.
pub(crate) fn params_of(at: &AtFamily) -> &[TermId]
    ensures { result.now ≡ take at.now.params at.now.args.items }
{
    let count = at.params.min(at.args.len());
    &at.args.as_slice()[..count]
}

/// The indices of a family.
fn indices_of(at: &AtFamily) -> &[TermId]
    ensures { result.now ≡ drop at.now.params at.now.args.items }
{
    let count = at.params.min(at.args.len());
    &at.args.as_slice()[count..]
}

impl<'a, S: Solutions> Elaborator<'a, S> {
    /// The context of a constructor for the variable outside which so many entries stand, or for a new one.
    pub(crate) fn con_context(
        &mut self,
        level: u32,
        at: &AtFamily,
        con: ConId,
        arguments: &[Entry],
    ) -> Result<Telescope, NoMemory>
        requires ready { IsReady S.solution self.old }
        requires level { level ≤ length self.old.left.now.context.items }
        requires at { AllByRecursion (λ t. t < length self.old.pool.now.trees) at.now.args.items }
        requires arguments { AllEntries (λ t. t < length self.old.pool.now.trees) arguments.now }
        ensures grows { Grows self.old self.new }
        ensures keeps { Keeps self.old self.new }
        ensures left { self.new.left.now ≡ self.old.left.now }
        ensures below { IfOk result (λ v. AllEntries (λ t. t < length self.new.pool.now.trees) v) }
        ensures long { level < length self.old.left.now.context.items
            → IfOk result (λ v. length v + 1 ≡ length self.old.left.now.context.items + length arguments.now) }
        ensures is { IfOk result (λ v. (s : Splitting) → IsSplit self.old.pool.now self.old.left.now.context.items level at.now s
            → context_in self.new.pool.now v ≡ context_of s con (telescope_map (tree self.old.pool.now) arguments.now)) }
    {
        let entries = self.left.context.as_slice();
        con_context(
            self.alloc,
            self.pool,
            outside(entries, level),
            inside(entries, level),
            con,
            params_of(at),
            arguments,
        )
    }

    /// The equations of a constructor for the variable outside which so many entries stand, or for a new one.
    pub(crate) fn index_equations(
        &mut self,
        level: u32,
        at: &AtFamily,
        con: &ConDecl,
    ) -> Result<Vec<Equation>, NoMemory>
        requires ready { IsReady S.solution self.old }
        requires at { AllByRecursion (λ t. t < length self.old.pool.now.trees) at.now.args.items }
        requires con { AllCon (λ t. t < length self.old.pool.now.trees) con.now }
        ensures grows { Grows self.old self.new }
        ensures keeps { Keeps self.old self.new }
        ensures left { self.new.left.now ≡ self.old.left.now }
        ensures below { IfOk result (λ v. AllByRecursion (EquationStands (length self.new.pool.now.trees)) v.items) }
        ensures is { IfOk result (λ v. (s : Splitting) → IsSplit self.old.pool.now self.old.left.now.context.items level at.now s
            → equations_in self.new.pool.now v.items ≡ equations_of s (con_map (tree self.old.pool.now) con.now)) }
    {
        let Ok(count) = u32::try_from(arguments_of(con).len()) else {
            return Err(NoMemory);
        };
        let Some(outer) = level.checked_add(1) else {
            return Err(NoMemory);
        };
        let inner = self.inside(outer)?;
        let params = reversed(self.alloc, params_of(at))?;
        index_equations(
            self.alloc,
            self.pool,
            ends_of(con),
            count,
            params.as_slice(),
            indices_of(at),
            inner,
        )
    }

    /// What the unifier says of the equations in the context.
    fn ask(&mut self, context: &Telescope, equations: &[Equation]) -> Unified
        requires ready { IsReady S.solution self.old }
        requires context { AllEntries (λ t. t < length self.old.pool.now.trees) context.now }
        requires equations { AllByRecursion (EquationStands (length self.old.pool.now.trees)) equations.now }
        ensures grows { Grows self.old self.new }
        ensures keeps { Keeps self.old self.new }
        ensures left { self.new.left.now ≡ self.old.left.now }
        ensures below { UnifiedBelow (length self.new.pool.now.trees) (length context.now) result }
        ensures is { (f : ℕ → Option Term) → IsFull (solved_of S.solution self.old) f
            → IsAnswered (Unifies (over S.solution f self.old) (context_in self.old.pool.now context.now)
            (equations_in self.old.pool.now equations.now)) self.new.pool.now result }
    {
        unify(
            self.alloc,
            self.pool,
            self.signature,
            self.solutions,
            context,
            equations,
            self.limits,
        )
    }

    /// The branch of a constructor pattern at this place, from the constructor's context and equations.
    pub(crate) fn unified(
        &mut self,
        pos: Pos,
        context: Telescope,
        equations: &[Equation],
    ) -> Result<Opened, LhsError>
        requires ready { IsReady S.solution self.old }
        requires context { AllEntries (λ t. t < length self.old.pool.now.trees) context }
        requires equations { AllByRecursion (EquationStands (length self.old.pool.now.trees)) equations.now }
        ensures grows { Grows self.old self.new }
        ensures keeps { Keeps self.old self.new }
        ensures left { self.new.left.now ≡ self.old.left.now }
        ensures same { IfOk result (λ o. o.context ≡ context) }
        ensures below { IfOk result (λ o. IsBranch (length self.new.pool.now.trees) (length context) o.branch) }
        ensures is { (f : ℕ → Option Term) → IsFull (solved_of S.solution self.old) f
            → Answers (IsOpened self.new.pool.now) self.new.pool.now (Comes (over S.solution f self.old)
            (unified pos (context_in self.old.pool.now context) (equations_in self.old.pool.now equations.now))) result }
    {
        match self.ask(&context, equations) {
            Unified::Solved(branch) => Ok(Opened { context, branch }),
            Unified::Refuted(_) => Err(refused(pos, LhsKind::Impossible)),
            Unified::Stuck { left, right } => Err(refused(
                pos,
                LhsKind::UnifyStuck {
                    context,
                    left,
                    right,
                },
            )),
            Unified::OutOfFuel => Err(refused(pos, LhsKind::OutOfFuel)),
            Unified::OutOfDepth => Err(refused(pos, LhsKind::OutOfDepth)),
            Unified::NoMemory => Err(LhsError::NoMemory),
        }
    }

    /// A constructor is refuted for `()` at this place.
    pub(crate) fn refuted(
        &mut self,
        pos: Pos,
        context: Telescope,
        equations: &[Equation],
    ) -> Result<(), LhsError>
        requires ready { IsReady S.solution self.old }
        requires context { AllEntries (λ t. t < length self.old.pool.now.trees) context }
        requires equations { AllByRecursion (EquationStands (length self.old.pool.now.trees)) equations.now }
        ensures grows { Grows self.old self.new }
        ensures keeps { Keeps self.old self.new }
        ensures left { self.new.left.now ≡ self.old.left.now }
        ensures is { (f : ℕ → Option Term) → IsFull (solved_of S.solution self.old) f
            → Answers IsNothing self.new.pool.now (Comes (over S.solution f self.old)
            (refuted pos (context_in self.old.pool.now context) (equations_in self.old.pool.now equations.now))) result }
    {
        match self.ask(&context, equations) {
            Unified::Solved(_) => Err(refused(pos, LhsKind::NotAbsurd)),
            Unified::Refuted(_) => Ok(()),
            Unified::Stuck { left, right } => Err(refused(
                pos,
                LhsKind::UnifyStuck {
                    context,
                    left,
                    right,
                },
            )),
            Unified::OutOfFuel => Err(refused(pos, LhsKind::OutOfFuel)),
            Unified::OutOfDepth => Err(refused(pos, LhsKind::OutOfDepth)),
            Unified::NoMemory => Err(LhsError::NoMemory),
        }
    }
}
