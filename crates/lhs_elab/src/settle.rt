//! The checked left side: its patterns with what has become of their variables.

ghost use Rattle.std.specs.Prelude.{◌≡◌, ℕ, ◌<◌, ◌+◌, ◌-◌, [], ◌∷◌, ◌++◌, length, map, IfOk, OnOk};
ghost use Rattle.std.specs.List.{AllByRecursion};
ghost use Rattle.core_rules.specs.Mapped.{AllLeft, AllPat, AllPats, dot_map, left_map, pat_map, pats_map, solved_map};
ghost use Rattle.core_rules.specs.Signature.{DottedPat, SolvedPat};
ghost use Rattle.core_terms.specs.Pattern.{origin_of, shape_of};
ghost use Rattle.core_terms.specs.Patterns.{pats_of};
ghost use Rattle.cover_rules.specs.LeftSide.{pat_named, pat_values, pats_named, pats_values, shape_named, solved_name};
ghost use Rattle.lhs_rules.specs.Patterns.{left_of as checked_left, dots_from, pat_dotted, pats_dotted, shape_dotted};
ghost use Rattle.lhs_rules.specs.Patterns.{placed_held, settled_pat, settled_pats, settled_spot, variable_held};
ghost use Rattle.lhs_rules.specs.Spots.{AtValue, AtVar, index_of, spot_at};
ghost use Rattle.term_pool.specs.Pool.{Extends, Pool, tree};
ghost use Rattle.lhs_elab.specs.Lefts.{LeftBelow, SpotBelow, left_in, placed_in, spot_in};
ghost use Rattle.lhs_elab.specs.Settled.{DotBelow, IsSettling, Grows, SolvedBelow, HeldBelow, IsSettled, dots_of, held_in, left_of, named_of, shape_in};

use crate::left::{Left, Placed, Spot};
use core_terms::{
    CheckedLeft, CorePat, Dot, NoMemory, Node, Origin, PatShape, Row, Solved, Telescope, TermId,
    TermPool, shift,
};
use std::alloc::Global;

/// The left side, and what its patterns have held so far: the written names that stand for values, and the dotted patterns.
#[derive(Drop)]
pub(crate) struct Settler<'a> {
    pub pool: &'a mut TermPool,
    pub left: &'a Left,
    pub named: &'a mut Vec<Solved>,
    pub dots: &'a mut Vec<Dot>,
    pub alloc: Global,
}

/// A value with its type.
#[derive(Clone, Copy)]
pub(crate) struct Held {
    pub value: TermId,
    pub ty: TermId,
}

/// What has become of the variable of this number.
fn spot_of(left: &Left, number: u32) -> Spot
    ensures is { (p : Pool) → spot_in (tree p) result ≡ spot_at (left_in p left.now) number }
    ensures below { (n : ℕ) → LeftBelow n left.now → SpotBelow n (length left.now.context.items) result }
{
    match left.spots.get(number as usize) {
        Some(spot) => *spot,
        None => Spot::Con,
    }
}

/// How many entries a left side has.
fn count_of(left: &Left) -> Result<u32, NoMemory>
    ensures { IfOk result (λ n. n ≡ length left.now.context.items) }
{
    let Ok(count) = u32::try_from(left.context.len()) else {
        return Err(NoMemory);
    };
    Ok(count)
}

impl<'a> Settler<'a> {
    /// A dotted pattern with this value.
    fn dotted(&mut self, held: Held) -> Result<PatShape, NoMemory>
        requires ready { IsSettling self.old }
        requires held { HeldBelow (length self.old.pool.now.trees) held }
        ensures grows { Grows self.old self.new }
        ensures ready { OnOk result (IsSettling self.new) }
        ensures named { OnOk result (named_of self.new ≡ named_of self.old) }
        ensures dots { OnOk result (dots_of self.new
            ≡ dots_of self.old ++ dots_from (length self.old.dots.now.items) (held_in (tree self.old.pool.now) held ∷ [])) }
        ensures is { IfOk result (λ s. shape_of s ≡ DottedPat held.value) }
        ensures pool { self.new.pool ≡ self.old.pool }
    {
        let Ok(at) = u32::try_from(self.dots.len()) else {
            return Err(NoMemory);
        };
        self.dots.push(Dot {
            at,
            value: held.value,
            ty: held.ty,
        })?;
        Ok(PatShape::Dotted { value: held.value })
    }

    /// A solved variable of this origin with this value.
    fn solved(&mut self, held: Held, origin: &Origin) -> Result<PatShape, NoMemory>
        requires ready { IsSettling self.old }
        requires held { HeldBelow (length self.old.pool.now.trees) held }
        ensures grows { Grows self.old self.new }
        ensures ready { OnOk result (IsSettling self.new) }
        ensures named { OnOk result (named_of self.new
            ≡ named_of self.old ++ solved_name (held_in (tree self.old.pool.now) held) (origin_of origin.now)) }
        ensures dots { OnOk result (dots_of self.new ≡ dots_of self.old) }
        ensures is { IfOk result (λ s. shape_of s ≡ SolvedPat held.value) }
        ensures pool { self.new.pool ≡ self.old.pool }
    {
        let Origin::Variable { name, .. } = origin else {
            return Ok(PatShape::Solved { value: held.value });
        };
        self.named.push(Solved {
            name: *name,
            value: held.value,
            ty: held.ty,
        })?;
        Ok(PatShape::Solved { value: held.value })
    }

    /// The variable outside which so many entries stand, with its type.
    fn variable(&mut self, level: u32) -> Result<Held, NoMemory>
        requires ready { IsSettling self.old }
        requires level { level < length self.old.left.now.context.items }
        ensures grows { Grows self.old self.new }
        ensures named { self.new.named.now ≡ self.old.named.now }
        ensures dots { self.new.dots.now ≡ self.old.dots.now }
        ensures below { IfOk result (HeldBelow (length self.new.pool.now.trees)) }
        ensures is { IfOk result (λ v. held_in (tree self.new.pool.now) v
            ≡ variable_held (left_of self.old).context (index_of (left_of self.old).context level)) }
    {
        let count = count_of(self.left)?;
        let inner = count - level;
        let entry = self.left.context[level as usize];
        let ty = shift(self.alloc, self.pool, entry.ty, 0, inner)?;
        let value = self.pool.add(Node::Var(inner - 1))?;
        Ok(Held { value, ty })
    }

    /// A value with its type in the whole context.
    fn value(&mut self, placed: Placed) -> Result<Held, NoMemory>
        requires ready { IsSettling self.old }
        requires value { placed.value < length self.old.pool.now.trees }
        requires ty { placed.ty < length self.old.pool.now.trees }
        ensures grows { Grows self.old self.new }
        ensures named { self.new.named.now ≡ self.old.named.now }
        ensures dots { self.new.dots.now ≡ self.old.dots.now }
        ensures below { IfOk result (HeldBelow (length self.new.pool.now.trees)) }
        ensures is { IfOk result (λ v. held_in (tree self.new.pool.now) v
            ≡ placed_held (left_of self.old).context (placed_in (tree self.old.pool.now) placed)) }
    {
        let count = count_of(self.left)?;
        let by = count.saturating_sub(placed.outer);
        let value = shift(self.alloc, self.pool, placed.value, 0, by)?;
        let ty = shift(self.alloc, self.pool, placed.ty, 0, by)?;
        Ok(Held { value, ty })
    }

    /// The pattern for the variable of this number, which has this origin.
    fn settle_var(&mut self, number: u32, origin: &Origin) -> Result<PatShape, NoMemory>
        requires ready { IsSettling self.old }
        ensures grows { Grows self.old self.new }
        ensures ready { OnOk result (IsSettling self.new) }
        ensures named { OnOk result (named_of self.new ≡ named_of self.old ++ shape_named
            (settled_spot (left_of self.old).context (origin_of origin.now) (spot_at (left_of self.old) number)) (origin_of origin.now)) }
        ensures dots { OnOk result (dots_of self.new ≡ dots_of self.old ++ dots_from (length self.old.dots.now.items) (shape_dotted
            (settled_spot (left_of self.old).context (origin_of origin.now) (spot_at (left_of self.old) number)))) }
        ensures is { IfOk result (λ s. IsSettled self.new
            (settled_spot (left_of self.old).context (origin_of origin.now) (spot_at (left_of self.old) number)) (shape_of s)) }
    {
        match spot_of(self.left, number) {
            Spot::Var(level) => self.settle_level(level, origin),
            Spot::Value(placed) => self.settle_value(placed, origin),
            Spot::Con => Ok(PatShape::Absurd),
        }
    }

    /// The pattern for the variable outside which so many entries stand.
    fn settle_level(&mut self, level: u32, origin: &Origin) -> Result<PatShape, NoMemory>
        requires ready { IsSettling self.old }
        requires level { level < length self.old.left.now.context.items }
        ensures grows { Grows self.old self.new }
        ensures ready { OnOk result (IsSettling self.new) }
        ensures named { OnOk result (named_of self.new ≡ named_of self.old ++ shape_named
            (settled_spot (left_of self.old).context (origin_of origin.now) (AtVar level)) (origin_of origin.now)) }
        ensures dots { OnOk result (dots_of self.new ≡ dots_of self.old ++ dots_from (length self.old.dots.now.items) (shape_dotted
            (settled_spot (left_of self.old).context (origin_of origin.now) (AtVar level)))) }
        ensures is { IfOk result (λ s. IsSettled self.new
            (settled_spot (left_of self.old).context (origin_of origin.now) (AtVar level)) (shape_of s)) }
    {
        match origin {
            Origin::Written => {
                let held = self.variable(level)?;
                self.dotted(held)
            }
            _ => {
                let count = count_of(self.left)?;
                Ok(PatShape::Var(count - level - 1))
            }
        }
    }

    /// The pattern for a variable that a split has solved.
    fn settle_value(&mut self, placed: Placed, origin: &Origin) -> Result<PatShape, NoMemory>
        requires ready { IsSettling self.old }
        requires value { placed.value < length self.old.pool.now.trees }
        requires ty { placed.ty < length self.old.pool.now.trees }
        ensures grows { Grows self.old self.new }
        ensures ready { OnOk result (IsSettling self.new) }
        ensures named { OnOk result (named_of self.new ≡ named_of self.old ++ shape_named
            (settled_spot (left_of self.old).context (origin_of origin.now) (AtValue (placed_in (tree self.old.pool.now) placed))) (origin_of origin.now)) }
        ensures dots { OnOk result (dots_of self.new ≡ dots_of self.old ++ dots_from (length self.old.dots.now.items) (shape_dotted
            (settled_spot (left_of self.old).context (origin_of origin.now) (AtValue (placed_in (tree self.old.pool.now) placed))))) }
        ensures is { IfOk result (λ s. IsSettled self.new
            (settled_spot (left_of self.old).context (origin_of origin.now) (AtValue (placed_in (tree self.old.pool.now) placed))) (shape_of s)) }
    {
        let held = self.value(placed)?;
        match origin {
            Origin::Written => self.dotted(held),
            _ => self.solved(held, origin),
        }
    }

    /// A pattern with what has become of its variables.
    #[cycle(settle)]
    fn settle_pat(&mut self, pat: &CorePat) -> Result<CorePat, NoMemory>
        requires ready { IsSettling self.old }
        ensures grows { Grows self.old self.new }
        ensures ready { OnOk result (IsSettling self.new) }
        ensures named { OnOk result (named_of self.new ≡ named_of self.old ++ pat_named (settled_pat (left_of self.old) pat.now)) }
        ensures dots { OnOk result (dots_of self.new
            ≡ dots_of self.old ++ dots_from (length self.old.dots.now.items) (pat_dotted (settled_pat (left_of self.old) pat.now))) }
        ensures below { IfOk result (AllPat (λ t. t < length self.new.pool.now.trees)) }
        ensures is { IfOk result (λ q. pat_map (tree self.new.pool.now) q ≡ pat_values (settled_pat (left_of self.old) pat.now)) }
    {
        let shape = self.settle_shape(pat)?;
        Ok(CorePat {
            shape,
            origin: pat.origin,
            braces: pat.braces,
        })
    }

    /// The shape of a pattern with what has become of its variables.
    #[cycle(settle)]
    fn settle_shape(&mut self, pat: &CorePat) -> Result<PatShape, NoMemory>
        requires ready { IsSettling self.old }
        ensures grows { Grows self.old self.new }
        ensures ready { OnOk result (IsSettling self.new) }
        ensures named { OnOk result (named_of self.new ≡ named_of self.old ++ pat_named (settled_pat (left_of self.old) pat.now)) }
        ensures dots { OnOk result (dots_of self.new
            ≡ dots_of self.old ++ dots_from (length self.old.dots.now.items) (pat_dotted (settled_pat (left_of self.old) pat.now))) }
        ensures is { IfOk result (λ s. IsSettled self.new (shape_in (settled_pat (left_of self.old) pat.now)) (shape_of s)) }
    {
        match &pat.shape {
            PatShape::Con { con, pats } => {
                let pats = self.settle_pats(pats.as_slice())?;
                Ok(PatShape::Con { con: *con, pats })
            }
            PatShape::Var(number) => self.settle_var(*number, &pat.origin),
            PatShape::Projection(field) => Ok(PatShape::Projection(*field)),
            PatShape::Solved { .. } => Ok(PatShape::Absurd),
            PatShape::Dotted { .. } => Ok(PatShape::Absurd),
            PatShape::Absurd => Ok(PatShape::Absurd),
        }
    }

    /// Patterns with what has become of their variables.
    #[cycle(settle)]
    fn settle_pats(&mut self, pats: &[CorePat]) -> Result<Vec<CorePat>, NoMemory>
        requires ready { IsSettling self.old }
        ensures grows { Grows self.old self.new }
        ensures ready { OnOk result (IsSettling self.new) }
        ensures named { OnOk result (named_of self.new ≡ named_of self.old ++ pats_named (settled_pats (left_of self.old) (pats_of pats.now))) }
        ensures dots { OnOk result (dots_of self.new
            ≡ dots_of self.old ++ dots_from (length self.old.dots.now.items) (pats_dotted (settled_pats (left_of self.old) (pats_of pats.now)))) }
        ensures below { IfOk result (λ v. AllPats (λ t. t < length self.new.pool.now.trees) (pats_of v.items)) }
        ensures is { IfOk result (λ v. pats_map (tree self.new.pool.now) (pats_of v.items)
            ≡ pats_values (settled_pats (left_of self.old) (pats_of pats.now))) }
    {
        let mut made = Vec::new(self.alloc);
        for pat in pats {
            let settled = self.settle_pat(pat)?;
            made.push(settled)?;
        }
        Ok(made)
    }
}

/// What the patterns of a left side are in the end: the patterns, the written names that stand for values, and the dotted patterns.
#[derive(Drop)]
struct Settled {
    pats: Vec<CorePat>,
    named: Vec<Solved>,
    dots: Vec<Dot>,
}

/// The patterns of a left side in the end.
fn settle_all(alloc: Global, pool: &mut TermPool, left: &Left) -> Result<Settled, NoMemory>
    requires left { LeftBelow (length pool.old.trees) left.now }
    ensures extends { Extends pool.old pool.new }
    ensures below { IfOk result (λ s. AllPats (λ t. t < length pool.new.trees) (pats_of s.pats.items)
        × AllByRecursion (SolvedBelow (length pool.new.trees)) s.named.items × AllByRecursion (DotBelow (length pool.new.trees)) s.dots.items) }
    ensures pats { IfOk result (λ s. pats_map (tree pool.new) (pats_of s.pats.items)
        ≡ pats_values (settled_pats (left_in pool.old left.now) (pats_of left.now.pats.items))) }
    ensures named { IfOk result (λ s. map (solved_map (tree pool.new)) s.named.items
        ≡ pats_named (settled_pats (left_in pool.old left.now) (pats_of left.now.pats.items))) }
    ensures dots { IfOk result (λ s. map (dot_map (tree pool.new)) s.dots.items
        ≡ dots_from 0 (pats_dotted (settled_pats (left_in pool.old left.now) (pats_of left.now.pats.items)))) }
{
    let mut named = Vec::new(alloc);
    let mut dots = Vec::new(alloc);
    let mut settler = Settler {
        pool,
        left,
        named: &mut named,
        dots: &mut dots,
        alloc,
    };
    let pats = settler.settle_pats(left.pats.as_slice())?;
    Ok(Settled { pats, named, dots })
}

/// The checked left side that a left side is in the end.
pub(crate) fn checked(
    alloc: Global,
    pool: &mut TermPool,
    left: Left,
) -> Result<CheckedLeft, NoMemory>
    requires left { LeftBelow (length pool.old.trees) left }
    ensures extends { Extends pool.old pool.new }
    ensures below { IfOk result (AllLeft (λ t. t < length pool.new.trees)) }
    ensures is { IfOk result (λ l. left_map (tree pool.new) l ≡ checked_left (left_in pool.old left)) }
{
    let Settled { pats, named, dots } = settle_all(alloc, pool, &left)?;
    Ok(CheckedLeft {
        context: Telescope {
            entries: Row::from_vec(left.context),
        },
        pats: Row::from_vec(pats),
        ty: left.ty,
        named: Row::from_vec(named),
        dots: Row::from_vec(dots),
        inserted: left.inserted,
    })
}
