//! Constructor patterns: what is done before the patterns of their arguments are read.

ghost use Rattle.std.specs.Prelude.{◌≡◌, ℕ, ◌<◌, ◌≤◌, ◌-◌, ◌∷◌, ◌++◌, true, Option, is_some, length, map, take, drop, IfOk, OnOk};
ghost use Rattle.std.specs.List.{AllByRecursion};
ghost use Rattle.core_rules.specs.Term.{Term};
ghost use Rattle.core_rules.specs.BoundedLaws.{IsFull};
ghost use Rattle.core_rules.specs.Signature.{Signature, con_decl};
ghost use Rattle.core_rules.specs.Mapped.{AllCon, AllEntries, con_map, telescope_map};
ghost use Rattle.core_rules.specs.TypedTree.{Splitting, into, new_con as con_of};
ghost use Rattle.core_terms.specs.Pattern.{origin_of};
ghost use Rattle.term_pool.specs.Pool.{Pool, tree};
ghost use Rattle.lhs_rules.specs.Patterns.{pattern_meaning};
ghost use Rattle.lhs_rules.specs.Rules.{all_inserted, shows, slot_entries};
ghost use Rattle.lhs_rules.specs.Spots.{spot_at, type_at};
ghost use Rattle.lhs_elab.specs.Answers.{Answers, IsShown};
ghost use Rattle.lhs_elab.specs.Asked.{IsSplit};
ghost use Rattle.lhs_elab.specs.Constructors.{AnswersEntered, IsLeft, con_put, con_read};
ghost use Rattle.lhs_elab.specs.Elaborator.{IsReady, Grows, Keeps, Comes, left_of, over, signature_of, solved_of};
ghost use Rattle.lhs_elab.specs.Families.{IsAtCon};
ghost use Rattle.lhs_elab.specs.Moving.{MoveBelow};
ghost use Rattle.lhs_elab.specs.Slots.{first_named, slot_by, slots_of};

use crate::asking::params_of;
use crate::branch::{entries_of, values_of};
use crate::elaborator::{Elaborator, Shown};
use crate::error::{LhsError, LhsKind, refused};
use crate::families::{AtFamily, arguments_of, at_family, con_decl, for_con};
use crate::forms::origin;
use crate::left::Spot;
use crate::moving::Move;
use crate::opening::new_con;
use crate::slots::{after, align};
use crate::spots::{counted, name_by};
use crate::vars::spread;
use core_terms::{ConDecl, ConId, Entry, NoMemory, Origin, Solutions, TermId};
use el_outside::Pos;
use resolved_tree::ResolvedPattern;
use std::alloc::Global;

/// The arguments of a constructor under the names of their patterns, and how many of them are not written.
#[derive(Drop)]
pub(crate) struct Named {
    pub entries: Vec<Entry>,
    pub hidden: u32,
}

/// Where the variable of an argument comes from, which has the first of the patterns, or none.
fn slot_origin(has: bool, left: &[ResolvedPattern]) -> Origin
    ensures { (g : Signature Term) (f : ℕ) → origin_of result ≡ (slot_by has (map (pattern_meaning g f) left.now)).origin }
{
    match left {
        [pattern, ..] if has => origin(pattern),
        _ => Origin::Inserted,
    }
}

/// The first of some flags.
pub(crate) fn first_flag(flags: &[bool]) -> bool
    requires { 1 ≤ length flags.now }
    ensures { flags.now ≡ result ∷ take (length flags.now - 1) (drop 1 flags.now) }
{
    flags[0]
}

/// The entries after the first one.
fn rest_of(entries: &[Entry]) -> &[Entry]
    ensures { result.now ≡ drop 1 entries.now }
{
    match entries {
        [_, more @ ..] => more,
        [] => entries,
    }
}

/// The entries, and after them the first one of others, under the name that a pattern of this origin gives it.
fn with_first(made: Vec<Entry>, others: &[Entry], origin: &Origin) -> Result<Vec<Entry>, NoMemory>
    ensures { IfOk result (λ v. v.items ≡ made.items ++ first_named (origin_of origin.now) others.now) }
{
    let mut all = made;
    if let [entry, ..] = others {
        let name = name_by(origin, entry.name);
        all.push(Entry { name, ..*entry })?;
    }
    Ok(all)
}

/// The arguments under the names of their patterns, where for each of them is said whether it has one.
fn name_arguments(
    alloc: Global,
    arguments: &[Entry],
    written: &[bool],
    patterns: &[ResolvedPattern],
) -> Result<Named, NoMemory>
    ensures entries { IfOk result (λ n. (g : Signature Term) (f : ℕ) (p : Pool) → telescope_map (tree p) n.entries.items
        ≡ slot_entries (slots_of written.now (map (pattern_meaning g f) patterns.now)) (telescope_map (tree p) arguments.now)) }
    ensures below { IfOk result (λ n. (m : ℕ) → AllEntries (λ t. t < m) arguments.now → AllEntries (λ t. t < m) n.entries.items) }
    ensures hidden { IfOk result (λ n. (g : Signature Term) (f : ℕ)
        → n.hidden ≡ all_inserted (slots_of written.now (map (pattern_meaning g f) patterns.now))) }
{
    let mut made = Vec::new(alloc);
    let mut hidden = 0;
    let mut left = patterns;
    let mut others = arguments;
    let mut flags = written;
    while let [_, rest @ ..] = flags {
        let has = first_flag(flags);
        let from = slot_origin(has, left);
        hidden = counted(hidden, &from)?;
        made = with_first(made, others, &from)?;
        others = rest_of(others);
        left = after(left, has);
        flags = rest;
    }
    made.extend_from_slice(others)?;
    Ok(Named {
        entries: made,
        hidden,
    })
}

impl<'a, S: Solutions> Elaborator<'a, S> {
    /// What the type of the variable of this number shows to the pattern at this place.
    pub(crate) fn shows_spot(&mut self, pos: Pos, number: u32) -> Result<Shown, LhsError>
        requires ready { IsReady S.solution self.old }
        ensures grows { Grows self.old self.new }
        ensures keeps { Keeps self.old self.new }
        ensures left { self.new.left.now ≡ self.old.left.now }
        ensures is { (f : ℕ → Option Term) → Answers (IsShown self.new.pool.now) self.new.pool.now (Comes (over S.solution f self.old)
            (shows pos (type_at (left_of self.old).context (spot_at (left_of self.old) number)))) result }
    {
        let spot = self.spot(number);
        let ty = self.type_at(spot)?;
        self.shows(pos, ty)
    }

    /// The family that the type of the variable of this number shows, where the constructor at this place can be put for it.
    fn con_at(&mut self, pos: Pos, con: ConId, number: u32) -> Result<AtFamily, LhsError>
        requires ready { IsReady S.solution self.old }
        ensures grows { Grows self.old self.new }
        ensures keeps { Keeps self.old self.new }
        ensures left { self.new.left.now ≡ self.old.left.now }
        ensures con { IfOk result (λ a. is_some (con_decl self.old.signature.now con) ≡ true) }
        ensures at { IfOk result (λ a. AllByRecursion (λ t. t < length self.new.pool.now.trees) a.args.items) }
        ensures is { (f : ℕ → Option Term) → Answers (IsAtCon self.new.pool.now (signature_of self.old) con) self.new.pool.now
            (Comes (over S.solution f self.old) (con_read (signature_of self.old) pos con
            (type_at (left_of self.old).context (spot_at (left_of self.old) number)))) result }
    {
        let shown = self.shows_spot(pos, number)?;
        let found = at_family(self.alloc, self.pool, self.signature, &shown)?;
        match for_con(self.signature, con, found) {
            Some(at) => Ok(at),
            None => Err(refused(pos, LhsKind::CannotSplit)),
        }
    }

    /// How a constructor for the variable outside which so many entries stand brings terms into its branch.
    fn move_for(
        &mut self,
        level: u32,
        new: u32,
        at: &AtFamily,
        con: ConId,
        arguments: &[Entry],
        values: &[TermId],
    ) -> Result<Move, NoMemory>
        requires ready { IsReady S.solution self.old }
        requires level { level < length self.old.left.now.context.items }
        requires new { new ≡ length arguments.now }
        requires at { AllByRecursion (λ t. t < length self.old.pool.now.trees) at.now.args.items }
        requires values { AllByRecursion (λ t. t < length self.old.pool.now.trees) values.now }
        ensures grows { Grows self.old self.new }
        ensures keeps { Keeps self.old self.new }
        ensures left { self.new.left.now ≡ self.old.left.now }
        ensures below { IfOk result (MoveBelow (length self.new.pool.now.trees)) }
        ensures values { IfOk result (λ m. m.values.items ≡ values.now) }
        ensures is { IfOk result (λ m. (s : Splitting) → IsSplit self.old.pool.now self.old.left.now.context.items level at.now s
            → map (tree self.new.pool.now) m.env.items ≡ into s.var (length self.old.left.now.context.items) new
            (con_of con s.params (telescope_map (tree self.old.pool.now) arguments.now))) }
    {
        let Some(outer) = level.checked_add(1) else {
            return Err(NoMemory);
        };
        let inner = self.inside(outer)?;
        let kept = Vec::from_slice(self.alloc, values)?;
        let term = new_con(self.alloc, self.pool, con, params_of(at), arguments)?;
        let env = spread(self.alloc, self.pool, inner, new, level, term)?;
        Ok(Move { env, values: kept })
    }

    /// A constructor is put for the variable outside which so many entries stand, whose type is that family.
    fn put_con(
        &mut self,
        pos: Pos,
        con: ConId,
        decl: &ConDecl,
        at: &AtFamily,
        named: Named,
        level: u32,
    ) -> Result<(), LhsError>
        requires ready { IsReady S.solution self.old }
        requires level { level < length self.old.left.now.context.items }
        requires decl { AllCon (λ t. t < length self.old.pool.now.trees) decl.now }
        requires at { AllByRecursion (λ t. t < length self.old.pool.now.trees) at.now.args.items }
        requires named { AllEntries (λ t. t < length self.old.pool.now.trees) named.entries.items }
        requires as_many { length named.entries.items ≡ length decl.now.args }
        ensures grows { Grows self.old self.new }
        ensures keeps { Keeps self.old self.new }
        ensures ready { OnOk result (IsReady S.solution self.new) }
        ensures is { (f : ℕ → Option Term) (s : Splitting) → IsFull (solved_of S.solution self.old) f
            → IsSplit self.old.pool.now self.old.left.now.context.items level at.now s
            → Answers (IsLeft self.new) self.new.pool.now (Comes (over S.solution f self.old)
            (con_put pos con (con_map (tree self.old.pool.now) decl.now) (telescope_map (tree self.old.pool.now) named.entries.items)
            named.hidden level s (left_of self.old))) result }
    {
        let arguments = arguments_of(decl);
        let Ok(new) = u32::try_from(arguments.len()) else {
            return Err(LhsError::NoMemory);
        };
        let context = self.con_context(level, at, con, named.entries.as_slice())?;
        let equations = self.index_equations(level, at, decl)?;
        let opened = self.unified(pos, context, equations.as_slice())?;
        let by = self.move_for(level, new, at, con, arguments, values_of(&opened.branch))?;
        let entries = entries_of(&opened.context);
        Ok(self.put(level, new, named.hidden, &by, entries, &opened.branch)?)
    }

    /// A constructor at this place is put for the variable of this number: for each of its arguments whether one of the patterns is
    /// written for it.
    pub(crate) fn enter_con(
        &mut self,
        pos: Pos,
        con: ConId,
        patterns: &[ResolvedPattern],
        number: u32,
    ) -> Result<Vec<bool>, LhsError>
        requires ready { IsReady S.solution self.old }
        ensures grows { Grows self.old self.new }
        ensures keeps { Keeps self.old self.new }
        ensures ready { OnOk result (IsReady S.solution self.new) }
        ensures is { (f : ℕ → Option Term) → IsFull (solved_of S.solution self.old) f
            → AnswersEntered (over S.solution f self.old) self.old self.new
            (map (pattern_meaning (signature_of self.old) self.old.function) patterns.now) pos con number result }
    {
        let at = self.con_at(pos, con, number)?;
        let signature = self.signature;
        let decl = con_decl(signature, con);
        let arguments = arguments_of(decl);
        let written = align(self.alloc, pos, patterns, arguments)?;
        let Spot::Var(level) = self.spot(number) else {
            return Err(refused(pos, LhsKind::ForcedConstructor));
        };
        let named = name_arguments(self.alloc, arguments, written.as_slice(), patterns)?;
        self.put_con(pos, con, decl, &at, named, level)?;
        Ok(written)
    }
}
