//! The patterns of a constructor with its arguments.

ghost use Rattle.std.specs.Prelude.{◌≡◌, ℕ, map};
ghost use Rattle.core_rules.specs.Term.{Term};
ghost use Rattle.core_rules.specs.Signature.{Signature};
ghost use Rattle.core_rules.specs.Mapped.{entry_map, telescope_map};
ghost use Rattle.term_pool.specs.Pool.{Pool, tree};
ghost use Rattle.lhs_rules.specs.Rules.{aligned, misfit as misfit_of};
ghost use Rattle.lhs_rules.specs.Patterns.{pattern_meaning};
ghost use Rattle.lhs_elab.specs.Answers.{Answers, RefusedBy};
ghost use Rattle.lhs_elab.specs.Slots.{AreSlots, Steps, rest_by};
ghost use Rattle.lhs_elab.specs.declared.error.LhsError.TheVariants.{Bad};
ghost use Rattle.lhs_elab.specs.declared.error.LhsKind.TheVariants.{NoSuchName, WrongArity};

use crate::due::{Due, Written, what_takes};
use crate::error::{LhsError, LhsKind};
use crate::forms::{how_written, position};
use core_rules::Flag;
use core_terms::Entry;
use el_outside::Pos;
use resolved_tree::ResolvedPattern;
use std::alloc::Global;

/// The refusal of what the type does not take: at its braces, or else at `pos`, where the number of patterns is wrong.
pub(crate) fn misfit(pos: Pos, pattern: &ResolvedPattern) -> LhsError
    ensures { (g : Signature Term) (f : ℕ) (p : Pool)
        → RefusedBy p (λ r. r ≡ misfit_of pos (pattern_meaning g f pattern.now).pos (pattern_meaning g f pattern.now).next) result }
{
    match how_written(pattern) {
        Written::Plain => wrong_arity(pos),
        Written::Project => wrong_arity(pos),
        Written::Braces => no_such_name(position(pattern)),
        Written::Named(_) => no_such_name(position(pattern)),
    }
}

/// WrongArity at this place.
pub(crate) fn wrong_arity(pos: Pos) -> LhsError
    ensures { result ≡ Bad pos WrongArity }
{
    LhsError::Bad {
        pos,
        kind: LhsKind::WrongArity,
    }
}

/// NoSuchName at this place.
pub(crate) fn no_such_name(pos: Pos) -> LhsError
    ensures { result ≡ Bad pos NoSuchName }
{
    LhsError::Bad {
        pos,
        kind: LhsKind::NoSuchName,
    }
}

/// Whether the argument of a constructor at `pos` has the next pattern, of those that are left, or none.
pub(crate) fn takes(pos: Pos, entry: &Entry, left: &[ResolvedPattern]) -> Result<bool, LhsError>
    ensures { (g : Signature Term) (f : ℕ) (p : Pool) → Steps g pos p (entry_map (tree p) entry.now) (map (pattern_meaning g f) left.now) result }
{
    let [pattern, ..] = left else {
        return match entry.flag {
            Flag::Explicit => Err(wrong_arity(pos)),
            Flag::Implicit => Ok(false),
        };
    };
    match what_takes(entry.flag, entry.name, how_written(pattern)) {
        Due::Takes => Ok(true),
        Due::Inserts => Ok(false),
        Due::Refuses => Err(misfit(pos, pattern)),
    }
}

/// The patterns that are left after an argument that has the first of them, or none.
pub(crate) fn after(left: &[ResolvedPattern], has: bool) -> &[ResolvedPattern]
    ensures { (g : Signature Term) (f : ℕ) → map (pattern_meaning g f) result.now ≡ rest_by has (map (pattern_meaning g f) left.now) }
{
    if !has {
        return left;
    }
    match left {
        [_, rest @ ..] => rest,
        [] => left,
    }
}

/// For each argument of the constructor at `pos` whether one of the patterns is written for it, in order.
pub(crate) fn align(
    alloc: Global,
    pos: Pos,
    patterns: &[ResolvedPattern],
    entries: &[Entry],
) -> Result<Vec<bool>, LhsError>
    ensures { (g : Signature Term) (f : ℕ) (p : Pool) → Answers (AreSlots (map (pattern_meaning g f) patterns.now)) p
        (λ r. r ≡ aligned g pos (map (pattern_meaning g f) patterns.now) (telescope_map (tree p) entries.now)) result }
{
    let mut written = Vec::new(alloc);
    let mut left = patterns;
    let mut others = entries;
    while let [entry, more @ ..] = others {
        let has = takes(pos, entry, left)?;
        written.push(has)?;
        left = after(left, has);
        others = more;
    }
    if let [pattern, ..] = left {
        return Err(misfit(pos, pattern));
    }
    Ok(written)
}
