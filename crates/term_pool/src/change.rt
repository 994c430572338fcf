ghost use Rattle.std.specs.Prelude.{◌≡◌, ℕ, ◌<◌, length, IfOk, OnOk};
ghost use Rattle.core_rules.specs.Term.{Term, Var};
ghost use Rattle.term_pool.specs.Pool.{Pool, tree, Extends, StandsFor};
ghost use Rattle.term_pool.specs.Change.{Keeps};

use crate::NoMemory;
use crate::ids::TermId;
use crate::node::Node;
use crate::pool::TermPool;
use std::alloc::Global;

/// What becomes of a variable.
pub(crate) trait Change {
    // the term for variable i under d binders
    ghost term: { Self → Pool → ℕ → ℕ → Term };

    // what must stand in the pool, and what the change keeps of its own
    ghost ready: { Self → Pool → Type 0 };

    /// The first of the variables that it concerns.
    fn first(&self) -> u32
        ensures { (p : Pool) → Keeps (term self.now p) result };

    /// The term for the variable `index`, which is the node `t`, under so many binders.
    fn variable(
        &mut self,
        alloc: Global,
        pool: &mut TermPool,
        t: TermId,
        under: u32,
        index: u32,
    ) -> Result<TermId, NoMemory>
        requires ready { ready self.old pool.old }
        requires within { t < length pool.old.trees }
        requires is { tree pool.old t ≡ Var index }
        ensures extends { Extends pool.old pool.new }
        ensures is { IfOk result (λ r. StandsFor pool.new r (term self.old pool.old under index)) }
        ensures same { OnOk result (term self.new pool.new ≡ term self.old pool.old) }
        ensures ready { OnOk result (ready self.new pool.new) };

    ghost stays_ready: { (x : Self) (p q : Pool) → Extends p q → ready x p → ready x q };

    ghost stays: { (x : Self) (p q : Pool) → Extends p q → ready x p → term x q ≡ term x p };
}

/// A node that waits for its result.
#[derive(Clone, Copy)]
pub(crate) enum Task {
    Make {
        t: TermId,
        under: u32,
    },
    /// The results of its two parts are there once the tasks after it are done, that of the second
    /// under `inner` binders: only the node is left to make.
    Join {
        t: TermId,
        under: u32,
        node: Node,
        first: TermId,
        second: TermId,
        inner: u32,
    },
}
