ghost use Rattle.std.specs.Prelude.{◌≡◌, ◌<◌, [], ◌∷◌, ◌++◌, length, IfOk, OnOk};
ghost use Rattle.core_rules.specs.Substitution.{over};
ghost use Rattle.term_pool.specs.Pool.{Below, Extends, StandsFor, node_tree, tree};
ghost use Rattle.term_pool.specs.Node.{with_two};
ghost use Rattle.term_pool.specs.Change.{State, Turn};
ghost use Rattle.term_pool.specs.declared.change.Task.TheVariants.{Make};

use crate::NoMemory;
use crate::change::{Change, Task};
use crate::ids::TermId;
use crate::node::{Node, Parts};
use crate::pool::TermPool;
use crate::table::Table;
use std::alloc::Global;

/// The term with its variables changed. It works once for each shared node under so many binders,
/// and keeps the nodes that wait in a list, so that a term of any depth gets its answer.
pub(crate) fn changed<C: Change>(
    alloc: Global,
    pool: &mut TermPool,
    change: &mut C,
    t: TermId,
) -> Result<TermId, NoMemory>
    requires within { t < length pool.old.trees }
    requires ready { C.ready change.old pool.old }
    ensures extends { Extends pool.old pool.new }
    ensures is { IfOk result
        (λ r. StandsFor pool.new r (over (C.term change.old pool.old) 0 (tree pool.old t))) }
{
    if pool.reach(t) <= change.first() as u64 {
        return Ok(t);
    }
    let mut table = Table::new(alloc);
    let mut pending = Vec::new(alloc);
    pending.push(Task::Make { t, under: 0 })?;
    while let Some(task) = pending.pop() {
        turn(alloc, pool, &mut table, &mut pending, change, task)?;
    }
    match table.get(t, 0) {
        Some(made) => Ok(made),
        None => unreachable!(),
    }
}

/// Works on the last of the tasks.
fn turn<C: Change>(
    alloc: Global,
    pool: &mut TermPool,
    table: &mut Table,
    pending: &mut Vec<Task>,
    change: &mut C,
    task: Task,
) -> Result<(), NoMemory>
    requires ready { C.ready change.old pool.old }
    requires state { State (C.term change.old pool.old)
        pool.old table.old (pending.old.items ++ task ∷ []) }
    ensures extends { Extends pool.old pool.new }
    ensures same { OnOk result (C.term change.new pool.new ≡ C.term change.old pool.old) }
    ensures ready { OnOk result (C.ready change.new pool.new) }
    ensures turn { OnOk result (Turn (C.term change.old pool.old)
        pool.old table.old (pending.old.items ++ task ∷ [])
        pool.new table.new pending.new.items) }
{
    match task {
        Task::Make { t, under } => {
            if table.get(t, under).is_some() {
                return Ok(());
            }
            make(alloc, pool, table, pending, change, t, under)
        }
        Task::Join {
            t,
            under,
            node,
            first,
            second,
            inner,
        } => {
            let Some(made_first) = table.get(first, under) else {
                unreachable!()
            };
            let Some(made_second) = table.get(second, inner) else {
                unreachable!()
            };
            let made = join(pool, t, &node, (first, second), (made_first, made_second))?;
            table.put(t, under, made)
        }
    }
}

/// Makes the result of a node without parts, and lets a node with parts wait for theirs.
fn make<C: Change>(
    alloc: Global,
    pool: &mut TermPool,
    table: &mut Table,
    pending: &mut Vec<Task>,
    change: &mut C,
    t: TermId,
    under: u32,
) -> Result<(), NoMemory>
    requires ready { C.ready change.old pool.old }
    requires state { State (C.term change.old pool.old)
        pool.old table.old (pending.old.items ++ Make t under ∷ []) }
    ensures extends { Extends pool.old pool.new }
    ensures same { OnOk result (C.term change.new pool.new ≡ C.term change.old pool.old) }
    ensures ready { OnOk result (C.ready change.new pool.new) }
    ensures turn { OnOk result (Turn (C.term change.old pool.old)
        pool.old table.old (pending.old.items ++ Make t under ∷ [])
        pool.new table.new pending.new.items) }
{
    if pool.reach(t) <= under as u64 + change.first() as u64 {
        return table.put(t, under, t);
    }
    let node = pool.node(t);
    match node.parts() {
        Parts::Variable(index) => {
            let made = change.variable(alloc, pool, t, under, index)?;
            table.put(t, under, made)
        }
        Parts::Alone => table.put(t, under, t),
        Parts::Two {
            first,
            second,
            binds,
        } => {
            let Some(inner) = under.checked_add(binds) else {
                return Err(NoMemory);
            };
            pending.push(Task::Join {
                t,
                under,
                node,
                first,
                second,
                inner,
            })?;
            pending.push(Task::Make {
                t: second,
                under: inner,
            })?;
            pending.push(Task::Make { t: first, under })?;
            Ok(())
        }
    }
}

/// The node `t` with what was made of its parts, which is `t` itself where they stay.
fn join(
    pool: &mut TermPool,
    t: TermId,
    node: &Node,
    parts: (TermId, TermId),
    made: (TermId, TermId),
) -> Result<TermId, NoMemory>
    requires within { t < length pool.old.trees }
    requires is { tree pool.old t ≡ node_tree (tree pool.old) node.now }
    requires parts { with_two parts.0 parts.1 node.now ≡ node.now }
    requires below { Below (tree pool.old) (length pool.old.trees)
        (with_two made.0 made.1 node.now) }
    ensures extends { Extends pool.old pool.new }
    ensures stands { IfOk result (λ r. StandsFor pool.new r
        (node_tree (tree pool.old) (with_two made.0 made.1 node.now))) }
{
    if made.0 == parts.0 && made.1 == parts.1 {
        return Ok(t);
    }
    pool.add(node.with_two(made.0, made.1))
}
