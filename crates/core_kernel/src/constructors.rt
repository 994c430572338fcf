//! The type of a constructor at the parameters of its family.

ghost use Rattle.std.specs.Prelude.{◌≡◌, ◌<◌, length, map, reverse, IfOk, OnOk};
ghost use Rattle.std.specs.List.{AllByRecursion};
ghost use Rattle.core_rules.specs.Term.{Con, from_list};
ghost use Rattle.core_rules.specs.InScope.{InScope, any_meta};
ghost use Rattle.core_rules.specs.Mapped.{AllEntries, telescope_map};
ghost use Rattle.core_rules.specs.Substitution.{under};
ghost use Rattle.core_rules.specs.Elimination.{con_type as declared_type};
ghost use Rattle.core_rules.specs.Typing.{IsCon};
ghost use Rattle.term_pool.specs.Pool.{IsArgs, StandsFor, args, tree};
ghost use Rattle.core_kernel.specs.Answers.{Answers, AnswersTerm};
ghost use Rattle.core_kernel.specs.Checker.{IsReady, IsTerm, Grows, Keeps, Infers, FitsInto, over, term_of, signature_of};

use crate::checker::Checker;
use crate::error::KernelError;
use crate::spine::between;
use core_terms::{Args, ConId, CoreDecl, Entry, NoMemory, TermId, TermPool};
use declared_types::type_of_con;

/// The items of an argument list, the last one first.
fn reversed(pool: &TermPool, list: Args) -> Result<Vec<TermId>, NoMemory>
    requires { IsArgs (tree pool.now) (length pool.now.trees) list }
    ensures within { IfOk result (λ v. AllByRecursion (λ t. t < length pool.now.trees) v.items) }
    ensures is { IfOk result (λ v. from_list (reverse (map (tree pool.now) v.items)) ≡ args pool.now list) }
{
    let mut terms = pool.args(list)?.into_vec();
    terms.reverse();
    Ok(terms)
}

impl<'a> Checker<'a> {
    /// That the terms, the last one first, are those of the entries: each has its entry's type, which stands under the terms before.
    #[cycle(kernel)]
    fn fits(&mut self, entries: &[Entry], terms: &[TermId]) -> Result<(), KernelError>
        requires ready { IsReady self.old }
        requires entries { AllEntries (λ t. t < length self.old.pool.now.trees) entries.now }
        requires terms { AllByRecursion (IsTerm self.old) terms.now }
        requires as_many { length entries.now ≡ length terms.now }
        ensures same_reference { self.new.pool.ghost_name ≡ self.old.pool.ghost_name }
        ensures grows { Grows self.old self.new }
        ensures keeps { OnOk result (Keeps self.old self.new) }
        ensures is { Answers self.new.pool.now (FitsInto (over self.old) (map (term_of self.old) terms.now)
            (telescope_map (term_of self.old) entries.now)) result }
    {
        let mut left = terms.len();
        while left > 0 {
            let entry = entries[terms.len() - left];
            let wanted = self.put_under(entry.ty, between(terms, left, terms.len()))?;
            left -= 1;
            self.check(terms[left], wanted)?;
        }
        Ok(())
    }

    /// The type of a constructor at parameters.
    #[cycle(kernel)]
    pub(crate) fn type_of_con(&mut self, con: ConId, params: Args) -> Result<TermId, KernelError>
        requires ready { IsReady self.old }
        requires params { IsArgs (term_of self.old) (length self.old.pool.now.trees) params }
        requires scope { InScope (signature_of self.old) any_meta (length self.old.context.now.items)
            (Con con (args self.old.pool.now params)) }
        ensures grows { Grows self.old self.new }
        ensures keeps { OnOk result (Keeps self.old self.new) }
        ensures is { AnswersTerm self.new.pool.now (Infers (over self.old) (Con con (args self.old.pool.now params))) result }
    {
        let terms = reversed(self.pool, params)?;
        let signature = self.signature;
        let (fam, _) = signature.con(con);
        let CoreDecl::Family {
            params: entries,
            ..
        } = &signature.fam(fam).decl
        else {
            unreachable!()
        };
        self.fits(entries.entries.as_slice(), terms.as_slice())?;
        Ok(self.con_at(con, terms.as_slice())?)
    }

    /// The type of a constructor at parameters that fit, the last one first.
    fn con_at(&mut self, con: ConId, params: &[TermId]) -> Result<TermId, NoMemory>
        requires ready { IsReady self.old }
        requires con { IsCon (signature_of self.old) con }
        requires params { AllByRecursion (λ t. t < length self.old.pool.now.trees) params.now }
        ensures grows { Grows self.old self.new }
        ensures keeps { Keeps self.old self.new }
        ensures is { IfOk result (λ r. (is : IsCon (signature_of self.old) con) → StandsFor self.new.pool.now r
            (under (map (term_of self.old) params.now) (declared_type is.fam is.decl is.con))) }
    {
        type_of_con(self.alloc, self.pool, self.signature, con, params)
    }
}
