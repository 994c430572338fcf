ghost use Rattle.std.specs.Prelude.{◌≡◌, ◌<◌, length, map, IfOk};
ghost use Rattle.std.specs.List.{AllByRecursion};
ghost use Rattle.term_pool.specs.Pool.{tree};
ghost use Rattle.index_unify.specs.Walk.{Tells};
ghost use Rattle.index_unify.specs.Dependence.{DependsOn, Edge, Goal, is_target};

use crate::queue::Queue;
use crate::walk::{Walk, reaches};
use core_terms::{NoMemory, Parts, TermId, TermPool};
use std::alloc::Global;

/// The variables that are looked for.
#[derive(Clone, Copy)]
pub(crate) enum Target<'a> {
    One(u32),
    /// Those that are marked.
    Marked(&'a [bool]),
}

impl<'a> Target<'a> {
    fn has(&self, var: u32) -> bool
        ensures { result ≡ is_target self.now var }
    {
        match *self {
            Target::One(wanted) => wanted == var,
            Target::Marked(marks) => {
                let at = var as usize;
                if at < marks.len() { marks[at] } else { false }
            }
        }
    }
}

#[derive(Drop)]
struct Dependence<'a> {
    types: &'a [TermId],
    target: Target<'a>,
}

impl<'a> Walk for Dependence<'a> {
    ghost edge = { λ w p. Edge (map (tree p) w.types.now) };

    ghost goal = { λ w. Goal (is_target w.target) };

    ghost ready = { λ w p. AllByRecursion (λ i. i < length p.trees) w.types.now };

    fn visit(
        &self,
        _alloc: Global,
        pool: &TermPool,
        queue: &mut Queue,
        t: TermId,
        under: u32,
    ) -> Result<bool, NoMemory> {
        if pool.reach(t) <= under as u64 {
            return Ok(false);
        }
        match pool.node(t).parts() {
            Parts::Alone => Ok(false),
            Parts::Variable(index) => {
                // A variable that reaches past the binders is one of the context.
                let var = index.saturating_sub(under);
                if self.target.has(var) {
                    return Ok(true);
                }
                let at = var as usize;
                if at < self.types.len() {
                    queue.add(self.types[at], 0)?;
                }
                Ok(false)
            }
            Parts::Two {
                first,
                second,
                binds,
            } => {
                let Some(inner) = under.checked_add(binds) else {
                    return Err(NoMemory);
                };
                queue.add(first, under)?;
                queue.add(second, inner)?;
                Ok(false)
            }
        }
    }
}

/// Whether `t` depends on a variable that is looked for: one that stands in it, or one on which the
/// type of one that stands in it depends. Without types it is whether one stands in it. Each shared
/// node of `t` and of the types is looked at once under so many binders.
pub(crate) fn depends_on(
    alloc: Global,
    pool: &TermPool,
    types: &[TermId],
    t: TermId,
    target: Target,
) -> Result<bool, NoMemory>
    requires types { AllByRecursion (λ i. i < length pool.now.trees) types.now }
    requires t { t < length pool.now.trees }
    ensures { IfOk result (Tells (DependsOn (map (tree pool.now) types.now) (is_target target.entry) (tree pool.now t))) }
{
    reaches(alloc, pool, &Dependence { types, target }, t)
}
