//! A constructor is put for a variable of the left side.

ghost use Rattle.std.specs.Prelude.{◌≡◌, ◌<◌, ◌+◌, ◌-◌, length, map, IfOk, OnOk};
ghost use Rattle.std.specs.List.{AllByRecursion};
ghost use Rattle.core_rules.specs.Term.{Term};
ghost use Rattle.core_rules.specs.Signature.{Context};
ghost use Rattle.core_rules.specs.Mapped.{AllEntries, branch_map};
ghost use Rattle.core_rules.specs.Substitution.{shift};
ghost use Rattle.term_pool.specs.Pool.{Extends, StandsFor, tree};
ghost use Rattle.index_unify.specs.Unified.{context_in};
ghost use Rattle.weak_head.specs.Elims.{Below, elim_in};
ghost use Rattle.lhs_rules.specs.Spots.{moved as moved_to, split_spot as spot_there};
ghost use Rattle.lhs_elab.specs.Lefts.{SpotBelow, spot_in, taken_in};
ghost use Rattle.lhs_elab.specs.Branches.{IsBranch};
ghost use Rattle.lhs_elab.specs.Moving.{MoveBelow, moved_by, put_by, taken_into};
ghost use Rattle.lhs_elab.specs.Elaborator.{IsReady, Grows, Keeps, left_of};

use crate::branch::{branch_spot, context_of, size_of, with_branch_spots};
use crate::elaborator::Elaborator;
use crate::left::{Placed, Spot, Taken};
use crate::moving::{Move, brought, moved};
use crate::spots::argument;
use core_terms::{Branch, Entry, NoMemory, Solutions, TermPool};
use std::alloc::Global;
use weak_head::Elim;

/// How many entries stand outside a variable in the context of a constructor, which has `new` variables in the place of the one outside
/// which there are `split` entries.
fn level_there(split: u32, new: u32, level: u32) -> Result<u32, NoMemory>
    ensures { IfOk result (λ i. i ≡ moved_to split new level) }
{
    if level < split {
        return Ok(level);
    }
    let Some(past) = level.checked_add(new) else {
        return Err(NoMemory);
    };
    Ok(past.saturating_sub(1))
}

/// An elimination of the outermost entries, which are so many, in the branch, which has `kept` entries.
fn split_elim(
    alloc: Global,
    pool: &mut TermPool,
    old: Elim,
    outer: u32,
    count: u32,
    by: &Move,
    kept: u32,
) -> Result<Taken, NoMemory>
    requires old { Below (length pool.old.trees) old }
    requires by { MoveBelow (length pool.old.trees) by.now }
    ensures extends { Extends pool.old pool.new }
    ensures below { IfOk result (λ t. Below (length pool.new.trees) t.elim) }
    ensures is { IfOk result (λ t. taken_in (tree pool.new) t
        ≡ taken_into (moved_by (tree pool.old) by.now) count kept (record { it = elim_in (tree pool.old) old; outer = outer })) }
{
    match old {
        Elim::Arg { flag, arg } => {
            let there = moved(alloc, pool, arg, outer, count, by)?;
            Ok(argument(flag, there, kept))
        }
        Elim::Field(field) => Ok(Taken {
            elim: Elim::Field(field),
            outer: kept,
        }),
    }
}

/// The eliminations in the branch.
fn split_spine(
    alloc: Global,
    pool: &mut TermPool,
    spine: &[Taken],
    count: u32,
    by: &Move,
    kept: u32,
) -> Result<Vec<Taken>, NoMemory>
    requires spine { AllByRecursion (λ e. Below (length pool.old.trees) e.elim) spine.now }
    requires by { MoveBelow (length pool.old.trees) by.now }
    ensures extends { Extends pool.old pool.new }
    ensures below { IfOk result (λ v. AllByRecursion (λ e. Below (length pool.new.trees) e.elim) v.items) }
    ensures is { IfOk result (λ v. map (taken_in (tree pool.new)) v.items
        ≡ map (taken_into (moved_by (tree pool.old) by.now) count kept) (map (taken_in (tree pool.old)) spine.now)) }
{
    let mut made = Vec::new(alloc);
    let mut left = spine;
    while let [taken, more @ ..] = left {
        let next = split_elim(alloc, pool, taken.elim, taken.outer, count, by, kept)?;
        made.push(next)?;
        left = more;
    }
    Ok(made)
}

/// A value in the branch.
fn split_value(
    alloc: Global,
    pool: &mut TermPool,
    placed: Placed,
    count: u32,
    by: &Move,
    kept: u32,
) -> Result<Placed, NoMemory>
    requires value { placed.value < length pool.old.trees }
    requires ty { placed.ty < length pool.old.trees }
    requires by { MoveBelow (length pool.old.trees) by.now }
    ensures extends { Extends pool.old pool.new }
    ensures value { IfOk result (λ v. StandsFor pool.new v.value
        (moved_by (tree pool.old) by.now (shift (tree pool.old placed.value) 0 (count - placed.outer)))) }
    ensures ty { IfOk result (λ v. StandsFor pool.new v.ty
        (moved_by (tree pool.old) by.now (shift (tree pool.old placed.ty) 0 (count - placed.outer)))) }
    ensures outer { IfOk result (λ v. v.outer ≡ kept) }
{
    let value = moved(alloc, pool, placed.value, placed.outer, count, by)?;
    let ty = moved(alloc, pool, placed.ty, placed.outer, count, by)?;
    Ok(Placed {
        value,
        ty,
        outer: kept,
    })
}

/// What becomes of a spot in the branch of the constructor's context, where `count` entries were all.
fn split_spot(
    alloc: Global,
    pool: &mut TermPool,
    spot: Spot,
    count: u32,
    split: u32,
    new: u32,
    by: &Move,
    context: &[Entry],
    branch: &Branch,
) -> Result<Spot, NoMemory>
    requires spot { SpotBelow (length pool.old.trees) count spot }
    requires by { MoveBelow (length pool.old.trees) by.now }
    requires context { AllEntries (λ i. i < length pool.old.trees) context.now }
    requires branch { IsBranch (length pool.old.trees) (length context.now) branch.now }
    requires long { length context.now + 1 ≡ count + new }
    requires split { split < count }
    ensures extends { Extends pool.old pool.new }
    ensures below { IfOk result (SpotBelow (length pool.new.trees) (length branch.now.context)) }
    ensures is { IfOk result (λ s. (c : Context Term) → length c ≡ count → spot_in (tree pool.new) s
        ≡ spot_there c split new (context_in pool.old context.now) (branch_map (tree pool.old) branch.now) (moved_by (tree pool.old) by.now)
        (spot_in (tree pool.old) spot)) }
{
    match spot {
        Spot::Var(level) => {
            if level == split {
                return Ok(Spot::Con);
            }
            let there = level_there(split, new, level)?;
            branch_spot(alloc, pool, context, branch, there)
        }
        Spot::Value(placed) => {
            let Ok(kept) = u32::try_from(size_of(branch)) else {
                return Err(NoMemory);
            };
            let value = split_value(alloc, pool, placed, count, by, kept)?;
            Ok(Spot::Value(value))
        }
        Spot::Con => Ok(Spot::Con),
    }
}

/// What becomes of the spots.
fn split_spots(
    alloc: Global,
    pool: &mut TermPool,
    spots: &[Spot],
    count: u32,
    split: u32,
    new: u32,
    by: &Move,
    context: &[Entry],
    branch: &Branch,
) -> Result<Vec<Spot>, NoMemory>
    requires spots { AllByRecursion (SpotBelow (length pool.old.trees) count) spots.now }
    requires by { MoveBelow (length pool.old.trees) by.now }
    requires context { AllEntries (λ i. i < length pool.old.trees) context.now }
    requires branch { IsBranch (length pool.old.trees) (length context.now) branch.now }
    requires long { length context.now + 1 ≡ count + new }
    requires split { split < count }
    ensures extends { Extends pool.old pool.new }
    ensures below { IfOk result (λ v. AllByRecursion (SpotBelow (length pool.new.trees) (length branch.now.context)) v.items) }
    ensures is { IfOk result (λ v. (c : Context Term) → length c ≡ count → map (spot_in (tree pool.new)) v.items
        ≡ map (spot_there c split new (context_in pool.old context.now) (branch_map (tree pool.old) branch.now) (moved_by (tree pool.old) by.now))
        (map (spot_in (tree pool.old)) spots.now)) }
{
    let mut made = Vec::new(alloc);
    let mut left = spots;
    while let [spot, more @ ..] = left {
        let next = split_spot(alloc, pool, *spot, count, split, new, by, context, branch)?;
        made.push(next)?;
        left = more;
    }
    Ok(made)
}

impl<'a, S: Solutions> Elaborator<'a, S> {
    /// A constructor with so many arguments is put for the variable outside which there are `split` entries, in the branch of the
    /// constructor's context; `hidden` of the arguments are not written.
    pub(crate) fn put(
        &mut self,
        split: u32,
        new: u32,
        hidden: u32,
        by: &Move,
        context: &[Entry],
        branch: &Branch,
    ) -> Result<(), NoMemory>
        requires ready { IsReady S.solution self.old }
        requires by { MoveBelow (length self.old.pool.now.trees) by.now }
        requires context { AllEntries (λ i. i < length self.old.pool.now.trees) context.now }
        requires branch { IsBranch (length self.old.pool.now.trees) (length context.now) branch.now }
        requires split { split < length self.old.left.now.context.items }
        requires long { length context.now + 1 ≡ length self.old.left.now.context.items + new }
        ensures grows { Grows self.old self.new }
        ensures keeps { Keeps self.old self.new }
        ensures ready { OnOk result (IsReady S.solution self.new) }
        ensures left { OnOk result (left_of self.new ≡ put_by (left_of self.old) split new hidden (context_in self.old.pool.now context.now)
            (branch_map (tree self.old.pool.now) branch.now) (moved_by (tree self.old.pool.now) by.now)) }
    {
        let Ok(count) = u32::try_from(self.left.context.len()) else {
            return Err(NoMemory);
        };
        let Ok(kept) = u32::try_from(size_of(branch)) else {
            return Err(NoMemory);
        };
        let Some(inserted) = self.left.inserted.checked_add(hidden) else {
            return Err(NoMemory);
        };
        let left = &*self.left;
        let ty = brought(self.alloc, self.pool, left.ty, by)?;
        let spine = split_spine(
            self.alloc,
            self.pool,
            left.spine.as_slice(),
            count,
            by,
            kept,
        )?;
        let before = split_spots(
            self.alloc,
            self.pool,
            left.spots.as_slice(),
            count,
            split,
            new,
            by,
            context,
            branch,
        )?;
        let spots = with_branch_spots(self.alloc, self.pool, context, branch, before, split, new)?;
        let entries = Vec::from_slice(self.alloc, context_of(branch))?;
        self.left.context = entries;
        self.left.spine = spine;
        self.left.spots = spots;
        self.left.ty = ty;
        self.left.inserted = inserted;
        Ok(())
    }
}
