ghost use Rattle.std.specs.Prelude.{◌≡◌, ℕ, ◌+◌, ◌<◌, ◌^◌, min, max, ◌||◌};
ghost use Rattle.core_rules.specs.Term.{Term, Var, Sort, Pi, Lam, App, Def, Fam, Con, Proj, Meta};
ghost use Rattle.term_pool.specs.Lists.{IsList, items};
ghost use Rattle.term_pool.specs.Measures.{IsExtent, IsMeasured};

use crate::ids::TermId;
use core_rules::Flag;

/// The most nodes that the finished core of a declaration may have, counted as a tree.
pub const MOST_NODES: u32 = 1_048_576;

/// The most levels that the finished core of a declaration may have.
pub const MOST_LEVELS: u32 = 2_000;

/// How large a tree is. Each number stops one past its limit.
#[derive(Clone, Copy, Drop)]
pub(crate) struct Extent {
    pub(crate) nodes: u32,
    pub(crate) depth: u32,
}

/// What is asked of a term often.
#[derive(Clone, Copy, Drop)]
pub(crate) struct Measures {
    /// The variables from here on do not occur in it.
    pub(crate) reach: u64,
    /// Whether a metavariable stands in it.
    pub(crate) has_meta: bool,
    pub(crate) whole: Extent,
    /// That of its items, where it is an argument list.
    pub(crate) items: Extent,
}

/// What a pool knows of the term of a node.
#[derive(Clone, Copy, Drop)]
pub(crate) struct Known {
    pub(crate) measures: Measures,
    /// The same term without names. Two terms are the same where this is one id.
    pub(crate) class: TermId,
}

fn capped(n: u64, most: u32) -> u32
    requires { most < 2 ^ 31 }
    ensures { result ≡ min n (most + 1) }
{
    if n <= most as u64 { n as u32 } else { most + 1 }
}

pub(crate) fn either(a: bool, b: bool) -> bool
    ensures { result ≡ a || b }
{
    a || b
}

impl Extent {
    /// That of no tree.
    pub(crate) fn none() -> Extent
        ensures { IsExtent 0 0 result }
    {
        Extent { nodes: 0, depth: 0 }
    }

    /// That of a node without parts.
    pub(crate) fn one() -> Extent
        ensures { IsExtent 1 1 result }
    {
        Extent { nodes: 1, depth: 1 }
    }

    /// That of two trees beside each other.
    pub(crate) fn beside(&self, other: &Extent) -> Extent
        ensures { (m n i j : ℕ) → IsExtent m i self.now → IsExtent n j other.now
            → IsExtent (m + n) (max i j) result }
    {
        Extent {
            nodes: capped(self.nodes as u64 + other.nodes as u64, MOST_NODES),
            depth: self.depth.max(other.depth),
        }
    }

    /// That of a node above two trees.
    pub(crate) fn joined(&self, other: &Extent) -> Extent
        ensures { (m n i j : ℕ) → IsExtent m i self.now → IsExtent n j other.now
            → IsExtent (1 + m + n) (1 + max i j) result }
    {
        self.beside(other).above()
    }

    /// That of a node above these trees.
    pub(crate) fn above(&self) -> Extent
        ensures { (n d : ℕ) → IsExtent n d self.now → IsExtent (1 + n) (1 + d) result }
    {
        Extent {
            nodes: capped(self.nodes as u64 + 1, MOST_NODES),
            depth: capped(self.depth as u64 + 1, MOST_LEVELS),
        }
    }
}

impl Measures {
    /// That of a node without parts, which reaches so far.
    pub(crate) fn leaf(reach: u64) -> Measures
        ensures var { (i : ℕ) → reach ≡ i + 1 → IsMeasured (Var i) result }
        ensures sort { (n : ℕ) → reach ≡ 0 → IsMeasured (Sort n) result }
        ensures def { (f : ℕ) → reach ≡ 0 → IsMeasured (Def f) result }
        ensures fam { (d : ℕ) → reach ≡ 0 → IsMeasured (Fam d) result }
    {
        Measures {
            reach,
            has_meta: false,
            whole: Extent::one(),
            items: Extent::none(),
        }
    }

    /// That of a binder with this domain and the other under it.
    pub(crate) fn binder(&self, under: &Measures) -> Measures
        ensures pi { (b : Flag) (x : ℕ) (a t : Term) → IsMeasured a self.now
            → IsMeasured t under.now → IsMeasured (Pi b x a t) result }
        ensures lam { (b : Flag) (x : ℕ) (a t : Term) → IsMeasured a self.now
            → IsMeasured t under.now → IsMeasured (Lam b x a t) result }
    {
        Measures {
            reach: self.reach.max(under.reach.saturating_sub(1)),
            has_meta: either(self.has_meta, under.has_meta),
            whole: self.whole.joined(&under.whole),
            items: Extent::none(),
        }
    }

    /// That of an application to the other, or of a list of this item and the other's items.
    pub(crate) fn applied(&self, arg: &Measures) -> Measures
        ensures { (b : Flag) (t u : Term) → IsMeasured t self.now → IsMeasured u arg.now
            → IsMeasured (App b t u) result }
    {
        Measures {
            reach: self.reach.max(arg.reach),
            has_meta: either(self.has_meta, arg.has_meta),
            whole: self.whole.joined(&arg.whole),
            items: self.whole.beside(&arg.items),
        }
    }

    /// That of a constructor with the items as its parameters.
    pub(crate) fn over_items(&self) -> Measures
        ensures { (k : ℕ) (t : Term) → IsList t → IsMeasured t self.now
            → IsMeasured (Con k (items t)) result }
    {
        Measures {
            reach: self.reach,
            has_meta: self.has_meta,
            whole: self.items.above(),
            items: Extent::none(),
        }
    }

    /// That of a projection.
    pub(crate) fn projected(&self) -> Measures
        ensures { (f : ℕ) (t : Term) → IsMeasured t self.now → IsMeasured (Proj f t) result }
    {
        Measures {
            reach: self.reach,
            has_meta: self.has_meta,
            whole: self.whole.above(),
            items: Extent::none(),
        }
    }

    /// That of a metavariable with the items as its arguments.
    pub(crate) fn waiting(&self) -> Measures
        ensures { (m : ℕ) (t : Term) → IsList t → IsMeasured t self.now
            → IsMeasured (Meta m (items t)) result }
    {
        Measures {
            reach: self.reach,
            has_meta: true,
            whole: self.items.above(),
            items: Extent::none(),
        }
    }
}
