ghost use Rattle.std.specs.Prelude.{◌≡◌, ℕ, ◌<◌, drop, map, reverse, slice_get, option_map, option_and_then, ◌+◌, ◌^◌, IfOk, IfSome};
ghost use Rattle.std.specs.List.{AllByRecursion};
ghost use Rattle.core_rules.specs.Term.{Term};
ghost use Rattle.weak_head.specs.Elims.{AllBelow, IsFirstField};
ghost use Rattle.weak_head.specs.Elims.{arg_of, args_of, spine_in};

use crate::elim::{Elim, Spine};
use core_terms::{FieldId, NoMemory, TermId};
use std::alloc::Global;

/// Elimination number `n`, counted from 0.
pub(crate) fn elim_at(spine: &Spine, n: usize) -> Option<Elim>
    ensures is { result ≡ slice_get (reverse spine.now.items) n }
    ensures next { IfSome result (λ e. n + 1 < 2 ^ 64) }
{
    let all = spine.as_slice();
    if n < all.len() {
        Some(all[all.len() - 1 - n])
    } else {
        None
    }
}

/// The first projection, with the number of arguments before it.
pub(crate) fn first_field(spine: &Spine) -> Option<(usize, FieldId)>
    ensures is { (f : ℕ → Term) → IsFirstField (spine_in f spine.now.items) result }
    ensures next { IfSome result (λ r. r.0 + 1 < 2 ^ 64) }
{
    let mut n = 0;
    while let Some(elim) = elim_at(spine, n) {
        if let Elim::Field(field) = elim {
            return Some((n, field));
        }
        n += 1;
    }
    None
}

/// The argument that is elimination number `n`, where it is one.
pub(crate) fn argument_at(spine: &Spine, n: usize) -> Option<TermId>
    ensures is { (f : ℕ → Term) → option_map f result ≡ option_and_then arg_of (slice_get (spine_in f spine.now.items) n) }
    ensures below { IfSome result (λ u. (k : ℕ) → AllBelow k spine.now.items → u < k) }
{
    match elim_at(spine, n)? {
        Elim::Arg { arg, .. } => Some(arg),
        Elim::Field(_) => None,
    }
}

/// The spine without its first `n` eliminations.
pub(crate) fn without(spine: Spine, n: usize) -> Spine
    ensures is { (f : ℕ → Term) → spine_in f result.items ≡ drop n (spine_in f spine.items) }
    ensures within { (k : ℕ) → AllBelow k spine.items → AllBelow k result.items }
{
    let mut rest = spine;
    let len = rest.len();
    rest.truncate(len.saturating_sub(n));
    rest
}

/// The arguments that a spine consists of.
pub(crate) fn arguments(alloc: Global, spine: &Spine) -> Result<Vec<TermId>, NoMemory>
    ensures is { IfOk result (λ us. (f : ℕ → Term) → map f us.items ≡ args_of (spine_in f spine.now.items)) }
    ensures within { IfOk result (λ us. (k : ℕ) → AllBelow k spine.now.items → AllByRecursion (λ i. i < k) us.items) }
{
    let mut all = Vec::new(alloc);
    let mut n = 0;
    while let Some(elim) = elim_at(spine, n) {
        if let Elim::Arg { arg, .. } = elim {
            all.push(arg)?;
        }
        n += 1;
    }
    Ok(all)
}
