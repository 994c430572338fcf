ghost use Rattle.std.specs.Prelude.{IfOk};
ghost use Rattle.case_terms.specs.Standing.{BranchIn, TreeIn};

use crate::fault::Fault;
use crate::terms::is_in;
use core_terms::{
    Branch, CoBranch, ConBranch, ConId, FamId, FieldId, Row, Step, Telescope, TermId, TermPool,
    Tree, Way,
};
use std::alloc::Global;

pub fn leaf(pool: &TermPool, body: TermId) -> Result<Tree, Fault>
    ensures { IfOk result (TreeIn pool.now) }
{
    if !is_in(pool, body) {
        return Err(Fault::Stray);
    }
    Ok(Tree {
        step: Step::Leaf { body, clause: 0 },
    })
}

pub fn intro(alloc: Global, pool: &TermPool, rest: Tree) -> Result<Tree, Fault>
    requires { TreeIn pool.now rest }
    ensures { IfOk result (TreeIn pool.now) }
{
    let rest = Box::new(alloc, rest)?;
    Ok(Tree {
        step: Step::Intro { rest },
    })
}

pub fn record_split(
    alloc: Global,
    pool: &TermPool,
    at: u32,
    fam: u32,
    rest: Tree,
) -> Result<Tree, Fault>
    requires { TreeIn pool.now rest }
    ensures { IfOk result (TreeIn pool.now) }
{
    let rest = Box::new(alloc, rest)?;
    let fam = FamId::new(fam);
    Ok(Tree {
        step: Step::RecordSplit { at, fam, rest },
    })
}

pub fn absurd(pool: &TermPool, at: u32) -> Tree
    ensures { TreeIn pool.now result }
{
    Tree {
        step: Step::Absurd { at },
    }
}

/// One branch, for a field.
pub fn cosplit(alloc: Global, pool: &TermPool, field: u32, rest: Tree) -> Result<Tree, Fault>
    requires { TreeIn pool.now rest }
    ensures { IfOk result (TreeIn pool.now) }
{
    let field = FieldId::new(field);
    let branches = vec![in alloc; CoBranch { field, rest }]?;
    Ok(Tree {
        step: Step::Cosplit { branches },
    })
}

/// The branch of a constructor that goes on with these variables.
pub fn goes(
    alloc: Global,
    pool: &TermPool,
    con: u32,
    keep: &[u32],
    rest: Tree,
) -> Result<ConBranch, Fault>
    requires { TreeIn pool.now rest }
    ensures { IfOk result (BranchIn pool.now) }
{
    let branch = Branch {
        context: Telescope {
            entries: Row::from_vec(Vec::new(alloc)),
        },
        subst: Row::from_vec(Vec::new(alloc)),
        keep: Row::from_vec(Vec::from_slice(alloc, keep)?),
    };
    Ok(ConBranch {
        con: ConId::new(con),
        way: Way::Goes { branch, rest },
    })
}

/// The branch of a constructor that is refuted.
pub fn refuted(pool: &TermPool, con: u32) -> ConBranch
    ensures { BranchIn pool.now result }
{
    ConBranch {
        con: ConId::new(con),
        way: Way::Refuted,
    }
}

/// A split with two branches.
#[tactic(auto, using(crate::proofs::Chains::branches))]
pub fn split(
    alloc: Global,
    pool: &TermPool,
    at: u32,
    first: ConBranch,
    second: ConBranch,
) -> Result<Tree, Fault>
    requires first { BranchIn pool.now first }
    requires second { BranchIn pool.now second }
    ensures { IfOk result (TreeIn pool.now) }
{
    let branches = vec![in alloc; first, second]?;
    Ok(Tree {
        step: Step::Split { at, branches },
    })
}
