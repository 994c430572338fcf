ghost use Rattle.std.specs.Prelude.{◌≡◌, ◌<◌, length, IsTrue};
ghost use Rattle.core_rules.specs.InScope.{IsAcyclic};
ghost use Rattle.core_rules.specs.Term.{AllMetas, AllMetasIn};
ghost use Rattle.term_pool.specs.Pool.{IsArgs, args, tree};
ghost use Rattle.core_terms.specs.Solutions.{AreIn, solved_in};
ghost use Rattle.case_terms.specs.Solved.{both_solved};

use crate::terms::is_in;
use core_terms::{Args, MetaId, Node, Solutions, TermId, TermPool};

/// Which metavariables are solved.
#[derive(Clone, Copy, Drop)]
pub enum Metas {
    Unsolved,
    Solved(Solved),
}

/// Metavariables 0 and 1 are solved.
#[derive(Clone, Copy, Drop)]
pub struct Solved {
    pub first: TermId,
    pub second: TermId,
}

impl Solutions for Solved {
    ghost solution = { λ s m. both_solved s.first s.second m };

    fn lookup(&self, m: MetaId) -> Option<TermId> {
        match m.number() {
            0 => Some(self.first),
            1 => Some(self.second),
            _ => None,
        }
    }
}

/// Whether no metavariable stands in the first solution, and the second is metavariable 0 at two
/// arguments in which none stands.
#[tactic(auto, using(crate::proofs::Chains::chains))]
pub fn is_chain(pool: &TermPool, solved: &Solved) -> bool
    ensures within { IsTrue result → AreIn pool.now (both_solved solved.now.first solved.now.second) }
    ensures acyclic { IsTrue result → IsAcyclic (solved_in pool.now (both_solved solved.now.first solved.now.second)) }
{
    has_none(pool, solved.first) && is_first(pool, solved.second)
}

/// Whether it is a term without metavariables.
#[tactic(auto, using(crate::proofs::Chains::chains))]
fn has_none(pool: &TermPool, t: TermId) -> bool
    ensures within { IsTrue result → t < length pool.now.trees }
    ensures none { IsTrue result → AllMetas (λ k. k < 0) (tree pool.now t) }
{
    if !is_in(pool, t) {
        return false;
    }
    !pool.has_meta(t)
}

/// Whether it is metavariable 0 at two arguments without metavariables.
fn is_first(pool: &TermPool, t: TermId) -> bool
    ensures within { IsTrue result → t < length pool.now.trees }
    ensures metas { IsTrue result → AllMetas (λ k. k < 1) (tree pool.now t) }
{
    if !is_in(pool, t) {
        return false;
    }
    let Node::Meta { meta, args } = pool.node(t) else {
        return false;
    };
    meta.number() == 0 && are_plain(pool, args)
}

/// Whether they are two arguments without metavariables.
#[tactic(auto, using(crate::proofs::Chains::chains))]
fn are_plain(pool: &TermPool, a: Args) -> bool
    requires { IsArgs (tree pool.now) (length pool.now.trees) a }
    ensures { IsTrue result → AllMetasIn (λ k. k < 1) (args pool.now a) }
{
    let Some((first, rest)) = pool.first(a) else {
        return false;
    };
    let Some((second, rest)) = pool.first(rest) else {
        return false;
    };
    if pool.first(rest).is_some() {
        return false;
    }
    if pool.has_meta(first) {
        return false;
    }
    !pool.has_meta(second)
}
