//! The left side so far.

use core_terms::{CorePat, Entry, TermId};
use weak_head::Elim;

/// A value with its type, in the context of the outermost entries, which are so many.
#[derive(Clone, Copy)]
pub(crate) struct Placed {
    pub value: TermId,
    pub ty: TermId,
    pub outer: u32,
}

/// What has become of a variable.
#[derive(Clone, Copy, Drop)]
pub(crate) enum Spot {
    /// It is a variable, outside which there are so many entries.
    Var(u32),
    /// A split forced this value for it.
    Value(Placed),
    /// A constructor was put for it.
    Con,
}

/// An elimination, in the context of the outermost entries, which are so many.
#[derive(Clone, Copy, Drop)]
pub(crate) struct Taken {
    pub elim: Elim,
    pub outer: u32,
}

/// The left side so far. The innermost entry of the context and the last elimination come last. A pattern's variable is the number of
/// its spot. What stands under the outermost entries stays as it is when an entry more is taken; only a split changes it.
#[derive(Drop)]
pub(crate) struct Left {
    pub context: Vec<Entry>,
    pub spine: Vec<Taken>,
    pub spots: Vec<Spot>,
    pub pats: Vec<CorePat>,
    pub ty: TermId,
    pub inserted: u32,
}
