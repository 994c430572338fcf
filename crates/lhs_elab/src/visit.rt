//! Patterns, and what each makes of the left side.

ghost use Rattle.std.specs.Prelude.{◌≡◌, ℕ, List, Option, length, drop, OnOk};
ghost use Rattle.core_rules.specs.Term.{Term};
ghost use Rattle.core_rules.specs.BoundedLaws.{IsFull};
ghost use Rattle.core_rules.specs.Signature.{Inserted, Pat, Plain, VarPat};
ghost use Rattle.lhs_rules.specs.Patterns.{inside, pattern_meaning};
ghost use Rattle.lhs_rules.specs.Rules.{ElimMeaning, constructor, visit_all};
ghost use Rattle.lhs_elab.specs.Answers.{Answers};
ghost use Rattle.lhs_elab.specs.Elaborator.{IsReady, Grows, Keeps, Comes, left_of, over, signature_of, solved_of};
ghost use Rattle.lhs_elab.specs.Reading.{AreRead, IsRead, IsSlotRead, meanings};
ghost use Rattle.lhs_elab.specs.Slots.{rest_by, slot_by, slot_for, slots_of};

use crate::constructors::first_flag;
use crate::elaborator::Elaborator;
use crate::error::LhsError;
use crate::forms::{braces, origin};
use crate::slots::wrong_arity;
use core_terms::{Braces, ConId, CorePat, Origin, PatShape, Solutions};
use el_outside::Pos;
use resolved_tree::ResolvedPattern;

/// The pattern of an argument for which none is written.
pub(crate) fn unwritten(number: u32) -> CorePat
    ensures { result ≡ Pat (VarPat number) Inserted Plain }
{
    CorePat {
        shape: PatShape::Var(number),
        origin: Origin::Inserted,
        braces: Braces::Plain,
    }
}

/// How many of the patterns stand before the next one, after an argument that has one, or none.
fn next_at(at: usize, has: bool, count: usize) -> usize
    ensures { (ms : List ElimMeaning) → length ms ≡ count → drop result ms ≡ rest_by has (drop at ms) }
{
    if !has {
        return at;
    }
    if at >= count {
        return at;
    }
    at + 1
}

impl<'a, S: Solutions> Elaborator<'a, S> {
    /// A pattern without its braces, for the variable of this number.
    #[cycle(visit)]
    pub(crate) fn visit(
        &mut self,
        pattern: &ResolvedPattern,
        number: u32,
    ) -> Result<PatShape, LhsError>
        requires ready { IsReady S.solution self.old }
        ensures grows { Grows self.old self.new }
        ensures keeps { Keeps self.old self.new }
        ensures ready { OnOk result (IsReady S.solution self.new) }
        ensures is { (f : ℕ → Option Term) → IsFull (solved_of S.solution self.old) f
            → Answers (IsRead self.new) self.new.pool.now (Comes (over S.solution f self.old)
            ((inside (pattern_meaning (signature_of self.old) self.old.function pattern.now)).visits number (left_of self.old))) result }
    {
        match pattern {
            ResolvedPattern::Implicit(_, inner) => self.visit(inner.get(), number),
            ResolvedPattern::Named(_, _, inner) => self.visit(inner.get(), number),
            ResolvedPattern::Project(place, _) => Err(wrong_arity(place.pos)),
            ResolvedPattern::Variable(_) => Ok(PatShape::Var(number)),
            ResolvedPattern::Con(place, con, patterns) => {
                self.visit_con(place.pos, *con, patterns.as_slice(), number)
            }
            ResolvedPattern::Underscore(_) => Ok(PatShape::Var(number)),
            ResolvedPattern::Absurd(place) => {
                self.absurd(place.pos, number)?;
                Ok(PatShape::Absurd)
            }
            ResolvedPattern::Dotted(_, _) => Ok(PatShape::Var(number)),
        }
    }

    /// A constructor with its patterns.
    #[cycle(visit)]
    fn visit_con(
        &mut self,
        pos: Pos,
        con: ConId,
        patterns: &[ResolvedPattern],
        number: u32,
    ) -> Result<PatShape, LhsError>
        requires ready { IsReady S.solution self.old }
        ensures grows { Grows self.old self.new }
        ensures keeps { Keeps self.old self.new }
        ensures ready { OnOk result (IsReady S.solution self.new) }
        ensures is { (f : ℕ → Option Term) → IsFull (solved_of S.solution self.old) f
            → Answers (IsRead self.new) self.new.pool.now (Comes (over S.solution f self.old)
            (constructor (signature_of self.old) self.old.function pos con (meanings self.old patterns.now) number (left_of self.old))) result }
    {
        let Ok(first) = u32::try_from(self.left.spots.len()) else {
            return Err(LhsError::NoMemory);
        };
        let written = self.enter_con(pos, con, patterns, number)?;
        let pats = self.visit_all(patterns, written.as_slice(), first)?;
        Ok(PatShape::Con { con, pats })
    }

    /// The patterns of the arguments of a constructor, whose variables have the numbers from `first` on; for each argument it is said
    /// whether a pattern is written for it.
    #[cycle(visit)]
    fn visit_all(
        &mut self,
        patterns: &[ResolvedPattern],
        written: &[bool],
        first: u32,
    ) -> Result<Vec<CorePat>, LhsError>
        requires ready { IsReady S.solution self.old }
        ensures grows { Grows self.old self.new }
        ensures keeps { Keeps self.old self.new }
        ensures ready { OnOk result (IsReady S.solution self.new) }
        ensures is { (f : ℕ → Option Term) → IsFull (solved_of S.solution self.old) f
            → Answers (AreRead self.new) self.new.pool.now (Comes (over S.solution f self.old)
            (visit_all (slots_of written.now (meanings self.old patterns.now)) first (left_of self.old))) result }
    {
        let mut pats = Vec::new(self.alloc);
        let mut at = 0;
        let mut number = first;
        let mut flags = written;
        while let [_, rest @ ..] = flags {
            let has = first_flag(flags);
            let pat = self.visit_slot(patterns, at, has, number)?;
            pats.push(pat)?;
            at = next_at(at, has, patterns.len());
            let Some(next) = number.checked_add(1) else {
                return Err(LhsError::NoMemory);
            };
            number = next;
            flags = rest;
        }
        Ok(pats)
    }

    /// The pattern of an argument, which is the next one of the patterns, or none of them.
    #[cycle(visit)]
    fn visit_slot(
        &mut self,
        patterns: &[ResolvedPattern],
        at: usize,
        has: bool,
        number: u32,
    ) -> Result<CorePat, LhsError>
        requires ready { IsReady S.solution self.old }
        ensures grows { Grows self.old self.new }
        ensures keeps { Keeps self.old self.new }
        ensures ready { OnOk result (IsReady S.solution self.new) }
        ensures is { (f : ℕ → Option Term) → IsFull (solved_of S.solution self.old) f
            → Answers (IsSlotRead self.new (slot_by has (drop at (meanings self.old patterns.now)))) self.new.pool.now
            (Comes (over S.solution f self.old)
            ((slot_by has (drop at (meanings self.old patterns.now))).visits number (left_of self.old))) result }
    {
        if !has {
            return Ok(unwritten(number));
        }
        if at >= patterns.len() {
            return Ok(unwritten(number));
        }
        self.visit_written(&patterns[at], number)
    }

    /// The pattern that is written for an argument.
    #[cycle(visit)]
    fn visit_written(&mut self, pattern: &ResolvedPattern, number: u32) -> Result<CorePat, LhsError>
        requires ready { IsReady S.solution self.old }
        ensures grows { Grows self.old self.new }
        ensures keeps { Keeps self.old self.new }
        ensures ready { OnOk result (IsReady S.solution self.new) }
        ensures is { (f : ℕ → Option Term) → IsFull (solved_of S.solution self.old) f
            → Answers (IsSlotRead self.new (slot_for (pattern_meaning (signature_of self.old) self.old.function pattern.now))) self.new.pool.now
            (Comes (over S.solution f self.old)
            ((inside (pattern_meaning (signature_of self.old) self.old.function pattern.now)).visits number (left_of self.old))) result }
    {
        let shape = self.visit(pattern, number)?;
        Ok(CorePat {
            shape,
            origin: origin(pattern),
            braces: braces(pattern),
        })
    }
}
