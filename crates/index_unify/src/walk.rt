ghost use Rattle.std.specs.Prelude.{◌<◌, length, Some, IfOk};
ghost use Rattle.term_pool.specs.Pool.{Pool, tree};
ghost use Rattle.index_unify.specs.Walk.{Place, Reaches, Tells, Visits};

use crate::queue::Queue;
use core_terms::{NoMemory, TermId, TermPool};
use std::alloc::Global;

/// A walk through terms that looks for something.
pub(crate) trait Walk {
    // where the walk goes on to
    ghost edge: { Self → Pool → Place → Place → Type 0 };

    // what is looked for
    ghost goal: { Self → Place → Type 0 };

    // what must stand in the pool
    ghost ready: { Self → Pool → Type 0 };

    /// Whether a node under so many binders is what is looked for. Where it is not, it puts that to
    /// which the walk goes on from there into the queue.
    fn visit(
        &self,
        alloc: Global,
        pool: &TermPool,
        queue: &mut Queue,
        t: TermId,
        under: u32,
    ) -> Result<bool, NoMemory>
        requires ready { ready self.now pool.now }
        requires t { t < length pool.now.trees }
        ensures { IfOk result (λ b. Visits (edge self.now pool.now) (goal self.now) pool.now (t, under) queue.old b queue.new) };
}

/// Whether the walk from `t` on comes to what it looks for. It visits each shared node once under so
/// many binders.
pub(crate) fn reaches<W: Walk>(
    alloc: Global,
    pool: &TermPool,
    walk: &W,
    t: TermId,
) -> Result<bool, NoMemory>
    requires ready { W.ready walk.now pool.now }
    requires t { t < length pool.now.trees }
    ensures { IfOk result (Tells (Reaches (W.edge walk.now pool.now) (W.goal walk.now) (tree pool.now t, 0))) }
{
    let mut queue = Queue::new(alloc);
    queue.add(t, 0)?;
    // There are fewer items than a vector can hold.
    for at in 0..usize::MAX {
        let Some(item) = queue.get(at) else {
            return Ok(false);
        };
        if walk.visit(alloc, pool, &mut queue, item.0, item.1)? {
            return Ok(true);
        }
    }
    Err(NoMemory)
}
