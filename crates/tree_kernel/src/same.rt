//! Whether a branch of a tree is the branch that unification gives.

ghost use Rattle.std.specs.Prelude.{◌≡◌, ◌<◌, ◌↔◌, length, map, IsTrue};
ghost use Rattle.std.specs.List.{AllByRecursion};
ghost use Rattle.core_rules.specs.Mapped.{AllBranch, AllEntries, branch_map, telescope_map};
ghost use Rattle.core_rules.specs.NameLaws.{AreSameTerms};
ghost use Rattle.kernel_rules.specs.TreeReading.{AreSameEntries, IsSameBranch};
ghost use Rattle.term_pool.specs.Pool.{tree};

use core_terms::{Branch, Entry, TermId, TermPool};

/// Whether entries have the same types and flags, one by one.
fn same_entries(pool: &TermPool, entries: &[Entry], others: &[Entry]) -> bool
    requires entries { AllEntries (λ i. i < length pool.now.trees) entries.now }
    requires others { AllEntries (λ i. i < length pool.now.trees) others.now }
    ensures { IsTrue result ↔ AreSameEntries (telescope_map (tree pool.now) entries.now) (telescope_map (tree pool.now) others.now) }
{
    let mut left = entries;
    let mut right = others;
    while let [entry, more @ ..] = left {
        let [other, rest @ ..] = right else {
            return false;
        };
        if entry.flag != other.flag || !pool.same_class(entry.ty, other.ty) {
            return false;
        }
        left = more;
        right = rest;
    }
    right.is_empty()
}

/// Whether terms differ in names at most, one by one.
fn same_terms(pool: &TermPool, terms: &[TermId], others: &[TermId]) -> bool
    requires terms { AllByRecursion (λ i. i < length pool.now.trees) terms.now }
    requires others { AllByRecursion (λ i. i < length pool.now.trees) others.now }
    ensures { IsTrue result ↔ AreSameTerms (map (tree pool.now) terms.now) (map (tree pool.now) others.now) }
{
    let mut left = terms;
    let mut right = others;
    while let [term, more @ ..] = left {
        let [other, rest @ ..] = right else {
            return false;
        };
        if !pool.same_class(*term, *other) {
            return false;
        }
        left = more;
        right = rest;
    }
    right.is_empty()
}

fn same_places(places: &[u32], others: &[u32]) -> bool
    ensures { IsTrue result ↔ (places.now ≡ others.now) }
{
    let mut left = places;
    let mut right = others;
    while let [place, more @ ..] = left {
        let [other, rest @ ..] = right else {
            return false;
        };
        if place != other {
            return false;
        }
        left = more;
        right = rest;
    }
    right.is_empty()
}

/// Whether two branches differ in names at most.
pub(crate) fn same_branch(pool: &TermPool, branch: &Branch, other: &Branch) -> bool
    requires branch { AllBranch (λ i. i < length pool.now.trees) branch.now }
    requires other { AllBranch (λ i. i < length pool.now.trees) other.now }
    ensures { IsTrue result ↔ IsSameBranch (branch_map (tree pool.now) branch.now) (branch_map (tree pool.now) other.now) }
{
    same_entries(
        pool,
        branch.context.entries.as_slice(),
        other.context.entries.as_slice(),
    ) && same_terms(pool, branch.subst.as_slice(), other.subst.as_slice())
        && same_places(branch.keep.as_slice(), other.keep.as_slice())
}
