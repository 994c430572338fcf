ghost use Rattle.std.specs.Prelude.{◌≡◌, ℕ, ◌<◌, length, IfOk, IfSome, option_map};
ghost use Rattle.core_rules.specs.Term.{Term};
ghost use Rattle.core_rules.specs.Elimination.{elims};
ghost use Rattle.core_rules.specs.Bounded.{last_field};
ghost use Rattle.term_pool.specs.Pool.{Extends, StandsFor, tree};
ghost use Rattle.weak_head.specs.Elims.{AllBelow, spine_in};
ghost use Rattle.conversion.specs.Spine.{CutBelow, cut_in};

use smallvec::SmallVec;
use std::alloc::Global;
use term_pool::{FieldId, NoMemory, TermId, TermPool};
use weak_head::{Applied, Elim, applied};

/// A projection with the eliminations before it and those after it, the first of each last.
#[derive(Clone, Copy)]
pub(crate) struct Cut<'a> {
    pub before: &'a [Elim],
    pub field: FieldId,
    pub after: &'a [Elim],
}

/// The last projection of these eliminations, of which the first one is last.
pub(crate) fn last_field(spine: &[Elim]) -> Option<Cut<'_>>
    ensures is { (f : ℕ → Term) → option_map (cut_in f) result ≡ last_field (spine_in f spine.now) }
    ensures below { IfSome result (λ c. (n : ℕ) → AllBelow n spine.now → CutBelow n c) }
{
    let mut n = 0;
    while n < spine.len() {
        if let Elim::Field(field) = spine[n] {
            return Some(Cut {
                before: &spine[n + 1..],
                field,
                after: &spine[..n],
            });
        }
        n += 1;
    }
    None
}

/// The term under these eliminations, of which the first one is last.
pub(crate) fn applied_to(
    alloc: Global,
    pool: &mut TermPool,
    head: TermId,
    spine: &[Elim],
) -> Result<TermId, NoMemory>
    requires head { head < length pool.old.trees }
    requires spine { AllBelow (length pool.old.trees) spine.now }
    ensures extends { Extends pool.old pool.new }
    ensures is { IfOk result (λ t. StandsFor pool.new t (elims (tree pool.old head) (spine_in (tree pool.old) spine.now))) }
{
    let spine = SmallVec::from_slice(alloc, spine)?;
    applied(pool, &Applied { head, spine })
}
