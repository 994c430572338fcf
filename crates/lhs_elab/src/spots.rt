//! The types of spots, and what is taken for a pattern.

ghost use Rattle.std.specs.Prelude.{◌≡◌, ℕ, ◌<◌, ◌+◌, ◌-◌, length, IfOk, OnOk};
ghost use Rattle.term_pool.specs.Pool.{StandsFor, tree};
ghost use Rattle.core_terms.specs.Pattern.{origin_of, braces_of, shape_of};
ghost use Rattle.lhs_rules.specs.Spots.{inserted_by, name_by as name_of_entry, spot_at, taken, type_at, with_pat};
ghost use Rattle.lhs_rules.specs.Rules.{binder_of, pattern_inserted};
ghost use Rattle.core_rules.specs.Heads.{Answer};
ghost use Rattle.core_rules.specs.Term.{Term};
ghost use Rattle.core_rules.specs.Elimination.{Arg};
ghost use Rattle.weak_head.specs.Elims.{Below};
ghost use Rattle.lhs_elab.specs.Lefts.{SpotBelow, spot_in, taken_in};
ghost use Rattle.lhs_elab.specs.Elaborator.{IsReady, Grows, Keeps, left_of, term_of};

use crate::elaborator::Elaborator;
use crate::left::{Spot, Taken};
use core_rules::Flag;
use core_terms::{
    Braces, CorePat, Entry, NameId, NoMemory, Node, Origin, PatShape, Solutions, TermId, shift,
};
use weak_head::Elim;

/// The name of an entry: a written variable's own, or its binder's.
pub(crate) fn name_by(origin: &Origin, binder: NameId) -> NameId
    ensures { result ≡ name_of_entry (origin_of origin.now) binder }
{
    match origin {
        Origin::Variable { name, .. } => *name,
        _ => binder,
    }
}

/// The number of patterns that the clause does not write, where one of this origin joins them.
pub(crate) fn counted(inserted: u32, origin: &Origin) -> Result<u32, NoMemory>
    ensures { IfOk result (λ n. n ≡ inserted + inserted_by (origin_of origin.now)) }
{
    if let Origin::Inserted = origin {
        inserted.checked_add(1).ok_or(NoMemory)
    } else {
        Ok(inserted)
    }
}

/// An argument in the context of the outermost entries, which are so many.
pub(crate) fn argument(flag: Flag, arg: TermId, outer: u32) -> Taken
    ensures is { (f : ℕ → Term) → taken_in f result ≡ record { it = Arg flag (f arg); outer = outer } }
    ensures below { (n : ℕ) → arg < n → Below n result.elim }
{
    Taken {
        elim: Elim::Arg { flag, arg },
        outer,
    }
}

impl<'a, S: Solutions> Elaborator<'a, S> {
    /// How many entries stand inside so many outermost ones.
    pub(crate) fn inside(&self, outer: u32) -> Result<u32, NoMemory>
        ensures { IfOk result (λ n. n ≡ length self.now.left.now.context.items - outer) }
    {
        let Ok(count) = u32::try_from(self.left.context.len()) else {
            return Err(NoMemory);
        };
        Ok(count.saturating_sub(outer))
    }

    /// The type of what stands at a spot.
    pub(crate) fn type_at(&mut self, spot: Spot) -> Result<TermId, NoMemory>
        requires ready { IsReady S.solution self.old }
        requires spot { SpotBelow (length self.old.pool.now.trees) (length self.old.left.now.context.items) spot }
        ensures grows { Grows self.old self.new }
        ensures keeps { Keeps self.old self.new }
        ensures left { self.new.left.now ≡ self.old.left.now }
        ensures is { IfOk result (λ t. StandsFor self.new.pool.now t
            (type_at (left_of self.old).context (spot_in (tree self.old.pool.now) spot))) }
    {
        match spot {
            Spot::Var(level) => {
                let entry = self.left.context[level as usize];
                Ok(entry.ty)
            }
            Spot::Value(placed) => {
                let by = self.inside(placed.outer)?;
                shift(self.alloc, self.pool, placed.ty, 0, by)
            }
            Spot::Con => self.pool.add(Node::Sort(0)),
        }
    }

    /// The variable of a function type is taken for a pattern of this origin.
    pub(crate) fn take(
        &mut self,
        flag: Flag,
        binder: NameId,
        dom: TermId,
        cod: TermId,
        origin: &Origin,
    ) -> Result<(), NoMemory>
        requires ready { IsReady S.solution self.old }
        requires dom { dom < length self.old.pool.now.trees }
        requires cod { cod < length self.old.pool.now.trees }
        ensures grows { Grows self.old self.new }
        ensures keeps { Keeps self.old self.new }
        ensures ready { OnOk result (IsReady S.solution self.new) }
        ensures left { OnOk result (left_of self.new
            ≡ taken (left_of self.old) flag binder (term_of self.old dom) (term_of self.old cod) (origin_of origin.now)) }
    {
        let Ok(level) = u32::try_from(self.left.context.len()) else {
            return Err(NoMemory);
        };
        let Some(outer) = level.checked_add(1) else {
            return Err(NoMemory);
        };
        let inserted = counted(self.left.inserted, origin)?;
        let arg = self.pool.add(Node::Var(0))?;
        let taken = argument(flag, arg, outer);
        self.left.spine.push(taken)?;
        self.left.spots.push(Spot::Var(level))?;
        let name = name_by(origin, binder);
        self.left.context.push(Entry {
            name,
            flag,
            ty: dom,
        })?;
        self.left.ty = cod;
        self.left.inserted = inserted;
        Ok(())
    }

    /// A pattern joins those of the left side.
    pub(crate) fn with_pat(
        &mut self,
        shape: PatShape,
        origin: Origin,
        braces: Braces,
    ) -> Result<(), NoMemory>
        requires ready { IsReady S.solution self.old }
        ensures grows { Grows self.old self.new }
        ensures keeps { Keeps self.old self.new }
        ensures ready { OnOk result (IsReady S.solution self.new) }
        ensures left { OnOk result (left_of self.new ≡ with_pat (left_of self.old) (shape_of shape) (origin_of origin) (braces_of braces)) }
    {
        self.left.pats.push(CorePat {
            shape,
            origin,
            braces,
        })?;
        Ok(())
    }

    /// What has become of the variable of this number.
    pub(crate) fn spot(&self, number: u32) -> Spot
        ensures is { spot_in (tree self.now.pool.now) result ≡ spot_at (left_of self.now) number }
        ensures below { IsReady S.solution self.now → SpotBelow (length self.now.pool.now.trees) (length self.now.left.now.context.items) result }
    {
        match self.left.spots.get(number as usize) {
            Some(spot) => *spot,
            None => Spot::Con,
        }
    }

    /// A pattern is inserted for the variable of an implicit function type.
    pub(crate) fn insert(
        &mut self,
        binder: NameId,
        dom: TermId,
        cod: TermId,
    ) -> Result<(), NoMemory>
        requires ready { IsReady S.solution self.old }
        requires dom { dom < length self.old.pool.now.trees }
        requires cod { cod < length self.old.pool.now.trees }
        ensures grows { Grows self.old self.new }
        ensures keeps { Keeps self.old self.new }
        ensures ready { OnOk result (IsReady S.solution self.new) }
        ensures left { OnOk result ((w : Answer) → binder_of w ≡ binder
            → left_of self.new ≡ pattern_inserted (left_of self.old) w (term_of self.old dom) (term_of self.old cod)) }
    {
        let Ok(number) = u32::try_from(self.left.spots.len()) else {
            return Err(NoMemory);
        };
        self.take(Flag::Implicit, binder, dom, cod, &Origin::Inserted)?;
        self.with_pat(PatShape::Var(number), Origin::Inserted, Braces::Plain)
    }
}
