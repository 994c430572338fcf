ghost use Rattle.std.specs.Prelude.{◌≡◌, ◌<◌, ◌∷◌, [], length, sum, IsTrue};
ghost use Rattle.std.specs.Option.{IfSome};
ghost use Rattle.std.specs.List.{AllByRecursion};
ghost use Rattle.core_rules.specs.Signature.{con_counts, fams};
ghost use Rattle.core_rules.specs.InScope.{arg_count, field_count};
ghost use Rattle.core_terms.specs.TreeView.{co_of, con_of};
ghost use Rattle.case_terms.specs.Known.{AreMarked};
ghost use Rattle.case_terms.specs.KnownTrees.{AreBranchesUnder, AreFieldsUnder, IsBranchUnder, IsTreeUnder, entries_for};

use crate::ids::Ids;
use core_terms::{Branch, CoBranch, ConBranch, ConId, CoreDecl, FamId, Step, Tree, Way};

/// How many entries there are where so many new ones take the place of one.
fn entries_with(under: usize, count: usize) -> Option<usize>
    ensures { IfSome result (λ n. n ≡ entries_for under count) }
{
    Some(under.checked_add(count)?.saturating_sub(1))
}

/// Whether each place is below the number.
fn are_below(under: usize, places: &[u32]) -> bool
    ensures { IsTrue result → AllByRecursion (λ i. i < under) places.now }
{
    let mut left = places;
    while let [place, more @ ..] = left {
        if *place as usize >= under {
            return false;
        }
        left = more;
    }
    true
}

impl<'a> Ids<'a> {
    /// How many fields a family has, if the signature has it.
    fn fields_of(&self, fam: FamId) -> Option<usize>
        ensures known { IfSome result (λ n. fam < length (fams self.now.sig.now)) }
        ensures is { IfSome result (λ n. n ≡ field_count self.now.sig.now fam) }
    {
        if fam.number() >= self.sig.fams() {
            return None;
        }
        let CoreDecl::Family { fields, .. } = &self.sig.fam(fam).decl else {
            return None;
        };
        Some(fields.entries.len())
    }

    /// How many arguments a constructor has, if the signature has it.
    fn args_of(&self, con: ConId) -> Option<usize>
        ensures known { IfSome result (λ n. con < sum (con_counts self.now.sig.now)) }
        ensures is { IfSome result (λ n. n ≡ arg_count self.now.sig.now con) }
    {
        if con.number() >= self.sig.cons() {
            return None;
        }
        let (fam, place) = self.sig.con(con);
        if fam.number() >= self.sig.fams() {
            return None;
        }
        let CoreDecl::Family { cons, .. } = &self.sig.fam(fam).decl else {
            return None;
        };
        let con = cons.as_slice().get(place as usize)?;
        Some(con.args.entries.len())
    }

    /// Whether the terms of a branch are in scope, where the context of its constructor has so many entries.
    fn is_branch(&self, under: usize, branch: &Branch) -> bool
        requires { AreMarked self.now }
        ensures { IsTrue result → IsBranchUnder self.now under branch.now }
    {
        let entries = branch.context.entries.as_slice();
        self.are_types(0, entries)
            && self.are_terms(entries.len(), branch.subst.as_slice())
            && are_below(under, branch.keep.as_slice())
    }

    /// Whether each part of a case tree is in scope where it stands, the whole under so many entries.
    #[cycle(tree)]
    pub fn is_tree(&self, under: usize, tree: &Tree) -> bool
        requires { AreMarked self.now }
        ensures { IsTrue result → IsTreeUnder self.now under tree.now }
    {
        match &tree.step {
            Step::Leaf { body, .. } => self.is_term(under, *body),
            Step::Intro { rest } => under < usize::MAX && self.is_tree(under + 1, rest),
            Step::Cosplit { branches } => self.are_fields(under, branches.as_slice()),
            Step::Split { at, branches } => {
                (*at as usize) < under && self.are_branches(under, branches.as_slice())
            }
            Step::RecordSplit { at, fam, rest } => {
                let Some(count) = self.fields_of(*fam) else {
                    return false;
                };
                let Some(inside) = entries_with(under, count) else {
                    return false;
                };
                (*at as usize) < under && self.is_tree(inside, rest)
            }
            Step::Absurd { at } => (*at as usize) < under,
        }
    }

    #[cycle(tree)]
    fn are_fields(&self, under: usize, branches: &[CoBranch]) -> bool
        requires { AreMarked self.now }
        ensures { IsTrue result → AreFieldsUnder self.now under (co_of branches.now) }
    {
        for branch in branches {
            if branch.field.number() >= self.sig.fields() || !self.is_tree(under, &branch.rest) {
                return false;
            }
        }
        true
    }

    #[cycle(tree)]
    fn are_branches(&self, under: usize, branches: &[ConBranch]) -> bool
        requires { AreMarked self.now }
        ensures { IsTrue result → AreBranchesUnder self.now under (con_of branches.now) }
    {
        for branch in branches {
            if !self.is_on(under, branch) {
                return false;
            }
        }
        true
    }

    /// The same of one branch.
    #[cycle(tree)]
    fn is_on(&self, under: usize, branch: &ConBranch) -> bool
        requires { AreMarked self.now }
        ensures { IsTrue result → AreBranchesUnder self.now under (con_of (branch.now ∷ [])) }
    {
        let Some(count) = self.args_of(branch.con) else {
            return false;
        };
        let Way::Goes { branch, rest } = &branch.way else {
            return true;
        };
        let Some(inside) = entries_with(under, count) else {
            return false;
        };
        self.is_branch(inside, branch) && self.is_tree(branch.context.entries.len(), rest)
    }
}
