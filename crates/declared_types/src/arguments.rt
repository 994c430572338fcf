ghost use Rattle.std.specs.Prelude.{◌≡◌, ℕ, ◌<◌, map, IfOk, IfSome, option_map};
ghost use Rattle.std.specs.List.{AllByRecursion};
ghost use Rattle.core_rules.specs.Term.{Term};
ghost use Rattle.core_rules.specs.Bounded.{same_flag as are_same_flags};
ghost use Rattle.core_rules.specs.Signature.{Family};
ghost use Rattle.core_rules.specs.Mapped.{fam_map, telescope_map};
ghost use Rattle.core_terms.specs.Signature.{decl_of, fam_of};
ghost use Rattle.weak_head.specs.Elims.{AllBelow, spine_in};
ghost use Rattle.kernel_rules.specs.TermReading.{arguments_for as taken_for};

use core_rules::Flag;
use core_terms::{CoreDecl, Entry, NoMemory, TermId};
use std::alloc::Global;
use weak_head::Elim;

/// Whether two arguments are given in one way.
pub fn same_flag(first: Flag, second: Flag) -> bool
    ensures { result ≡ are_same_flags first second }
{
    matches!(
        (first, second),
        (Flag::Explicit, Flag::Explicit) | (Flag::Implicit, Flag::Implicit)
    )
}

/// The terms of these eliminations, where they are arguments for the entries, as many and each given as its entry is. The first
/// elimination is last; the terms are in the order of the entries.
pub fn arguments_for(
    alloc: Global,
    entries: &[Entry],
    spine: &[Elim],
) -> Result<Option<Vec<TermId>>, NoMemory>
    ensures is { IfOk result (λ o. (f : ℕ → Term) → option_map (λ v. map f v.items) o
        ≡ taken_for (telescope_map f entries.now) (spine_in f spine.now)) }
    ensures below { IfOk result (λ o. IfSome o (λ v. (n : ℕ) → AllBelow n spine.now → AllByRecursion (λ t. t < n) v.items)) }
{
    let mut taken = Vec::new(alloc);
    let mut left = entries;
    let mut given = spine.len();
    while let [entry, more @ ..] = left {
        let Some(others) = given.checked_sub(1) else {
            return Ok(None);
        };
        let Elim::Arg { flag, arg } = spine[others] else {
            return Ok(None);
        };
        if !same_flag(entry.flag, flag) {
            return Ok(None);
        }
        taken.push(arg)?;
        left = more;
        given = others;
    }
    if given == 0 {
        Ok(Some(taken))
    } else {
        Ok(None)
    }
}

/// The parameters of a family, where these eliminations are arguments for all of them and nothing more. The first elimination is last;
/// the parameters are in the order of the family.
pub fn params_for(
    alloc: Global,
    decl: &CoreDecl,
    spine: &[Elim],
) -> Result<Option<Vec<TermId>>, NoMemory>
    requires { decl_of decl.now ≡ Family (fam_of decl.now) }
    ensures is { IfOk result (λ o. (f : ℕ → Term) → option_map (λ v. map f v.items) o
        ≡ taken_for (fam_map f (fam_of decl.now)).params (spine_in f spine.now)) }
    ensures below { IfOk result (λ o. IfSome o (λ v. (n : ℕ) → AllBelow n spine.now → AllByRecursion (λ t. t < n) v.items)) }
{
    let CoreDecl::Family { params, .. } = decl else {
        unreachable!()
    };
    arguments_for(alloc, params.entries.as_slice(), spine)
}
