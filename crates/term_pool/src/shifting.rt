ghost use Rattle.std.specs.Prelude.{◌<◌, length, map, IfOk, OnOk, refl};
ghost use Rattle.std.specs.List.{AllByRecursion};
ghost use Rattle.core_rules.specs.Substitution.{shift, shift_var, subst, under};
ghost use Rattle.term_pool.specs.Pool.{tree, Extends, StandsFor};
ghost use Rattle.term_pool.specs.Placed.{filled, placed, placed_var, placed-stays};
ghost use Rattle.term_pool.specs.Shifted.{AreShifted, IsReady, IsReady-stays};

use crate::NoMemory;
use crate::change::Change;
use crate::ids::TermId;
use crate::node::Node;
use crate::pool::TermPool;
use crate::table::Table;
use crate::traversal::changed;
use std::alloc::Global;

/// The variables from `from` on rise by `by`.
#[derive(Drop)]
struct Rise {
    from: u32,
    by: u32,
}

impl Change for Rise {
    ghost term = { λ s p d i. shift_var s.from s.by d i };

    ghost ready = { λ s p. Unit {0} };

    ghost stays_ready = { λ s p q h k. tt };

    ghost stays = { λ s p q h k. refl };

    fn first(&self) -> u32 {
        self.from
    }

    fn variable(
        &mut self,
        _alloc: Global,
        pool: &mut TermPool,
        t: TermId,
        under: u32,
        index: u32,
    ) -> Result<TermId, NoMemory> {
        let moves = match self.from.checked_add(under) {
            Some(first) => first <= index,
            None => false,
        };
        if !moves {
            return Ok(t);
        }
        let Some(moved) = index.checked_add(self.by) else {
            return Err(NoMemory);
        };
        pool.add(Node::Var(moved))
    }
}

/// What becomes of the variables after those that get a term.
#[derive(Clone, Copy)]
pub(crate) enum Beyond {
    /// They move down into the place of those that got one.
    Moves,
    /// They become a closed term.
    Closes,
}

/// Terms stand for the variables from `at` on.
#[derive(Drop)]
struct Place<'a> {
    at: u32,
    items: &'a [TermId],
    beyond: Beyond,
    /// The items, shifted by so many binders: once for each number of them.
    shifted: Table,
}

/// The term, which is one of the items, under so many binders.
fn lifted(
    alloc: Global,
    pool: &mut TermPool,
    shifted: &mut Table,
    t: TermId,
    under: u32,
) -> Result<TermId, NoMemory>
    requires shifted { AreShifted shifted.old pool.old }
    requires within { t < length pool.old.trees }
    ensures extends { Extends pool.old pool.new }
    ensures is { IfOk result (λ r. StandsFor pool.new r (shift (tree pool.old t) 0 under)) }
    ensures shifted { OnOk result (AreShifted shifted.new pool.new) }
{
    if let Some(made) = shifted.get(t, under) {
        return Ok(made);
    }
    let made = shift(alloc, pool, t, 0, under)?;
    shifted.put(t, under, made)?;
    Ok(made)
}

impl<'a> Change for Place<'a> {
    ghost term = { λ s p d i. placed_var s.at (map (tree p) s.items.now) s.beyond d i };

    ghost ready = { λ s p. IsReady s.shifted s.items.now p };

    ghost stays_ready = { λ s p q h k. IsReady-stays h k };

    ghost stays = { λ s p q h k. placed-stays s.at s.items.now s.beyond p q h k.items };

    fn first(&self) -> u32 {
        self.at
    }

    fn variable(
        &mut self,
        alloc: Global,
        pool: &mut TermPool,
        t: TermId,
        under: u32,
        index: u32,
    ) -> Result<TermId, NoMemory> {
        let Some(start) = self.at.checked_add(under) else {
            return Ok(t);
        };
        if index < start {
            return Ok(t);
        }
        let place = (index - start) as usize;
        let items = self.items;
        if place < items.len() {
            return lifted(alloc, pool, &mut self.shifted, items[place], under);
        }
        pool.add(match self.beyond {
            Beyond::Moves => Node::Var(index - items.len() as u32),
            Beyond::Closes => Node::Sort(0),
        })
    }
}

/// The term with its variables from `from` on raised by `by`. A variable that would reach 2^32 is
/// out of memory.
pub fn shift(
    alloc: Global,
    pool: &mut TermPool,
    t: TermId,
    from: u32,
    by: u32,
) -> Result<TermId, NoMemory>
    requires { t < length pool.old.trees }
    ensures extends { Extends pool.old pool.new }
    ensures is { IfOk result (λ r. StandsFor pool.new r (shift (tree pool.old t) from by)) }
{
    if by == 0 {
        return Ok(t);
    }
    changed(alloc, pool, &mut Rise { from, by }, t)
}

/// The term with `by`, which stands in the context of the result, for the variable `at`; the later
/// variables move down by one. A variable that would reach 2^32 is out of memory.
pub fn subst(
    alloc: Global,
    pool: &mut TermPool,
    t: TermId,
    at: u32,
    by: TermId,
) -> Result<TermId, NoMemory>
    requires t { t < length pool.old.trees }
    requires by { by < length pool.old.trees }
    ensures extends { Extends pool.old pool.new }
    ensures is { IfOk result
        (λ r. StandsFor pool.new r (subst (tree pool.old t) at (tree pool.old by))) }
{
    put_items(alloc, pool, t, at, &[by], Beyond::Moves)
}

/// The term with item i of the list for its variable i, where a variable without an item becomes a
/// closed term.
pub fn under(
    alloc: Global,
    pool: &mut TermPool,
    t: TermId,
    env: &[TermId],
) -> Result<TermId, NoMemory>
    requires t { t < length pool.old.trees }
    requires env { AllByRecursion (λ i. i < length pool.old.trees) env.now }
    ensures extends { Extends pool.old pool.new }
    ensures is { IfOk result
        (λ r. StandsFor pool.new r (under (map (tree pool.old) env.now) (tree pool.old t))) }
{
    put_items(alloc, pool, t, 0, env, Beyond::Closes)
}

/// The term with item i of the list for its variable i; the variables after the items move down.
pub fn fill(
    alloc: Global,
    pool: &mut TermPool,
    t: TermId,
    items: &[TermId],
) -> Result<TermId, NoMemory>
    requires t { t < length pool.old.trees }
    requires items { AllByRecursion (λ i. i < length pool.old.trees) items.now }
    ensures extends { Extends pool.old pool.new }
    ensures is { IfOk result
        (λ r. StandsFor pool.new r (filled (map (tree pool.old) items.now) (tree pool.old t))) }
{
    put_items(alloc, pool, t, 0, items, Beyond::Moves)
}

/// The term with these items for its variables from `at` on.
fn put_items(
    alloc: Global,
    pool: &mut TermPool,
    t: TermId,
    at: u32,
    items: &[TermId],
    beyond: Beyond,
) -> Result<TermId, NoMemory>
    requires t { t < length pool.old.trees }
    requires items { AllByRecursion (λ i. i < length pool.old.trees) items.now }
    ensures extends { Extends pool.old pool.new }
    ensures is { IfOk result (λ r. StandsFor pool.new r
        (placed at (map (tree pool.old) items.now) beyond (tree pool.old t))) }
{
    let shifted = Table::new(alloc);
    changed(
        alloc,
        pool,
        &mut Place {
            at,
            items,
            beyond,
            shifted,
        },
        t,
    )
}
