//! What waits to be read: the parts of a case tree, each with what it is read against.

use core_terms::{CoBranch, ConBranch, ConDecl, ConId, Entry, FieldId, Telescope, TermId, Tree};

/// A tree in a context, which is to give terms of this type, with the left side so far.
#[derive(Drop)]
pub(crate) struct Node<'a> {
    pub context: Telescope,
    pub tree: &'a Tree,
    pub ty: TermId,
    pub left: TermId,
}

/// The fields of a record that are left, with the branches that are left. `env` has the parameters of the record and the projections of
/// the left side to the fields before, the last one last.
#[derive(Drop)]
pub(crate) struct Fields<'a> {
    pub context: Telescope,
    pub left: TermId,
    pub env: Vec<TermId>,
    pub fields: &'a [FieldId],
    pub entries: &'a [Entry],
    pub branches: &'a [CoBranch],
}

/// A variable of a context whose type is a family at these parameters and indices, with the type that the split is to give, and the left
/// side so far.
#[derive(Drop)]
pub(crate) struct Split {
    pub context: Telescope,
    pub var: u32,
    pub params: Vec<TermId>,
    pub indices: Vec<TermId>,
    pub ty: TermId,
    pub left: TermId,
}

/// The constructors of a split that are left, with the branches that are left.
#[derive(Drop)]
pub(crate) struct Branches<'a> {
    pub split: Split,
    pub cons: &'a [ConId],
    pub decls: &'a [ConDecl],
    pub branches: &'a [ConBranch],
}

#[derive(Drop)]
pub(crate) enum Job<'a> {
    Node(Node<'a>),
    Fields(Fields<'a>),
    Branches(Branches<'a>),
}

/// What is still to be read of a job: nothing, one job, or a tree and then a job.
#[derive(Drop)]
pub(crate) enum Rest<'a> {
    Nothing,
    One(Job<'a>),
    Two(Node<'a>, Job<'a>),
}
