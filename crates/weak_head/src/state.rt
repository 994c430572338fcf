use crate::elim::Spine;
use core_terms::{ConBranch, MetaId, TermId, Tree};

/// A head under eliminations.
#[derive(Drop)]
pub struct Applied {
    pub head: TermId,
    pub spine: Spine,
}

/// The call of a function that is at a node of its tree. The tree has taken the first `taken`
/// eliminations; the last value of `env` is that of variable 0.
#[derive(Drop)]
pub(crate) struct Call {
    pub term: Applied,
    pub taken: usize,
    pub env: Vec<TermId>,
}

/// A split that waits for the head form of its value.
#[derive(Drop)]
pub(crate) struct Frame<'a> {
    pub call: Call,
    pub at: u32,
    pub branches: &'a [ConBranch],
}

/// The term to which one step leads.
#[derive(Drop)]
pub(crate) enum Due {
    /// The body of a lambda with its argument.
    Beta { body: TermId, arg: TermId },
    /// The body of a leaf with the environment of its tree.
    Unfold { body: TermId, env: Vec<TermId> },
    /// The argument that a projection takes.
    Take { arg: TermId },
}

/// What is looked at: a term, a call at a node of its tree, an answer with the metavariable that it
/// waits for, or a step that is due with the eliminations of its term.
#[derive(Drop)]
pub(crate) enum State<'a> {
    Term(Applied),
    Node(Call, &'a Tree),
    Answer(Option<MetaId>, Applied),
    Step(Due, Spine),
}

/// What follows a call at a node: a state, or its split with the value that it waits for.
#[derive(Drop)]
pub(crate) enum Turned<'a> {
    On(State<'a>),
    Asks(Frame<'a>, TermId),
}

/// A run with the splits that wait, the innermost last; its answer; or a step that is due.
#[derive(Drop)]
pub(crate) enum Run<'a> {
    On(State<'a>, Vec<Frame<'a>>),
    Answer(Option<MetaId>, Applied),
    Due(Due, Spine, Vec<Frame<'a>>),
}
