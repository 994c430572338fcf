//! Absurd patterns: each constructor is refuted.

ghost use Rattle.std.specs.Prelude.{◌≡◌, ℕ, ◌<◌, ◌≤◌, Option, length, IfOk, IfSome};
ghost use Rattle.std.specs.List.{AllByRecursion};
ghost use Rattle.core_rules.specs.Term.{Term};
ghost use Rattle.core_rules.specs.BoundedLaws.{IsFull};
ghost use Rattle.core_rules.specs.Signature.{cons_of, fam_decl, fams};
ghost use Rattle.core_rules.specs.Mapped.{AllCon, con_map};
ghost use Rattle.core_rules.specs.TypedTree.{Splitting};
ghost use Rattle.term_pool.specs.Pool.{tree};
ghost use Rattle.lhs_rules.specs.Rules.{absurd_pattern, all_refuted};
ghost use Rattle.lhs_rules.specs.Spots.{spot_at, type_at};
ghost use Rattle.lhs_elab.specs.Answers.{Answers};
ghost use Rattle.lhs_elab.specs.Asked.{IsNothing, IsSplit};
ghost use Rattle.lhs_elab.specs.Constructors.{con_refuted, data_read};
ghost use Rattle.lhs_elab.specs.Elaborator.{IsReady, Grows, Keeps, Comes, left_of, over, signature_of, solved_of};
ghost use Rattle.lhs_elab.specs.Families.{IsData};
ghost use Rattle.lhs_elab.specs.Reading.{IsAbsurd, cons_in, level_of};

use crate::elaborator::Elaborator;
use crate::error::{LhsError, LhsKind, refused};
use crate::families::{AtFamily, arguments_of, at_family, data_of};
use crate::left::Spot;
use core_terms::{ConDecl, ConId, CoreDecl, FamId, NoMemory, Signature, Solutions};
use el_outside::Pos;

/// The ids of the constructors of a family.
fn cons_ids(sig: &Signature, fam: FamId) -> &[ConId]
    requires { fam < length (fams sig.now) }
    ensures { result.now ≡ cons_of sig.now fam }
{
    sig.fam(fam).cons.as_slice()
}

/// The constructors of a family.
fn cons_decls(sig: &Signature, fam: FamId) -> &[ConDecl]
    requires { fam < length (fams sig.now) }
    ensures { IfSome (fam_decl sig.now fam) (λ d. result.now ≡ d.cons) }
{
    let CoreDecl::Family { cons, .. } = &sig.fam(fam).decl else {
        unreachable!()
    };
    cons.as_slice()
}

impl<'a, S: Solutions> Elaborator<'a, S> {
    /// The data type that the type of the variable of this number shows.
    fn data_at(&mut self, pos: Pos, number: u32) -> Result<AtFamily, LhsError>
        requires ready { IsReady S.solution self.old }
        ensures grows { Grows self.old self.new }
        ensures keeps { Keeps self.old self.new }
        ensures left { self.new.left.now ≡ self.old.left.now }
        ensures fam { IfOk result (λ a. a.fam < length (fams self.old.signature.now)) }
        ensures at { IfOk result (λ a. AllByRecursion (λ t. t < length self.new.pool.now.trees) a.args.items) }
        ensures is { (f : ℕ → Option Term) → Answers (IsData self.new.pool.now (signature_of self.old)) self.new.pool.now
            (Comes (over S.solution f self.old) (data_read (signature_of self.old) pos
            (type_at (left_of self.old).context (spot_at (left_of self.old) number)))) result }
    {
        let shown = self.shows_spot(pos, number)?;
        let found = at_family(self.alloc, self.pool, self.signature, &shown)?;
        match data_of(self.signature, found) {
            Some(at) => Ok(at),
            None => Err(refused(pos, LhsKind::NotAbsurd)),
        }
    }

    /// How many entries stand outside the variable of this number, or outside a new one, if a split has solved it.
    fn level_at(&self, number: u32) -> Result<u32, NoMemory>
        ensures { IfOk result (λ n. n ≡ level_of (length self.now.left.now.context.items) (spot_at (left_of self.now) number)) }
    {
        match self.spot(number) {
            Spot::Var(level) => Ok(level),
            Spot::Value(_) | Spot::Con => {
                let Ok(count) = u32::try_from(self.left.context.len()) else {
                    return Err(NoMemory);
                };
                Ok(count)
            }
        }
    }

    /// One constructor is refuted.
    fn con_refuted(
        &mut self,
        pos: Pos,
        level: u32,
        at: &AtFamily,
        con: ConId,
        decl: &ConDecl,
    ) -> Result<(), LhsError>
        requires ready { IsReady S.solution self.old }
        requires level { level ≤ length self.old.left.now.context.items }
        requires at { AllByRecursion (λ t. t < length self.old.pool.now.trees) at.now.args.items }
        requires decl { AllCon (λ t. t < length self.old.pool.now.trees) decl.now }
        ensures grows { Grows self.old self.new }
        ensures keeps { Keeps self.old self.new }
        ensures left { self.new.left.now ≡ self.old.left.now }
        ensures is { (f : ℕ → Option Term) (s : Splitting) → IsFull (solved_of S.solution self.old) f
            → IsSplit self.old.pool.now self.old.left.now.context.items level at.now s
            → Answers IsNothing self.new.pool.now (Comes (over S.solution f self.old)
            (con_refuted pos con (con_map (tree self.old.pool.now) decl.now) s)) result }
    {
        let context = self.con_context(level, at, con, arguments_of(decl))?;
        let equations = self.index_equations(level, at, decl)?;
        self.refuted(pos, context, equations.as_slice())
    }

    /// Each constructor is refuted: the first one in order that is not decides.
    fn all_refuted(&mut self, pos: Pos, level: u32, at: &AtFamily) -> Result<(), LhsError>
        requires ready { IsReady S.solution self.old }
        requires level { level ≤ length self.old.left.now.context.items }
        requires fam { at.now.fam < length (fams self.old.signature.now) }
        requires at { AllByRecursion (λ t. t < length self.old.pool.now.trees) at.now.args.items }
        ensures grows { Grows self.old self.new }
        ensures keeps { Keeps self.old self.new }
        ensures left { self.new.left.now ≡ self.old.left.now }
        ensures is { (f : ℕ → Option Term) (s : Splitting) → IsFull (solved_of S.solution self.old) f
            → IsSplit self.old.pool.now self.old.left.now.context.items level at.now s
            → Answers IsNothing self.new.pool.now (Comes (over S.solution f self.old) (all_refuted pos s
            (cons_of (signature_of self.old) at.now.fam) (cons_in self.old at.now.fam))) result }
    {
        let signature = self.signature;
        let mut ids = cons_ids(signature, at.fam);
        let mut left = cons_decls(signature, at.fam);
        while let [decl, more @ ..] = left {
            let [con, rest @ ..] = ids else {
                return Ok(());
            };
            self.con_refuted(pos, level, at, *con, decl)?;
            left = more;
            ids = rest;
        }
        Ok(())
    }

    /// `()` at this place, for the variable of this number.
    pub(crate) fn absurd(&mut self, pos: Pos, number: u32) -> Result<(), LhsError>
        requires ready { IsReady S.solution self.old }
        ensures grows { Grows self.old self.new }
        ensures keeps { Keeps self.old self.new }
        ensures left { self.new.left.now ≡ self.old.left.now }
        ensures is { (f : ℕ → Option Term) → IsFull (solved_of S.solution self.old) f
            → Answers (IsAbsurd self.old) self.new.pool.now (Comes (over S.solution f self.old)
            (absurd_pattern (signature_of self.old) self.old.function pos number (left_of self.old))) result }
    {
        let at = self.data_at(pos, number)?;
        let level = self.level_at(number)?;
        self.all_refuted(pos, level, &at)
    }
}
