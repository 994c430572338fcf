//! The number of nodes of a tree. It takes no memory.

ghost use Rattle.std.specs.Prelude.{◌≡◌, ◌-◌, ◌^◌, ℕ, map, min, sum};
ghost use Rattle.source_tree.specs.Nodes.{arg_nodes, binder_nodes, clause_nodes, decl_nodes, expr_nodes, field_nodes, file_nodes, pattern_nodes, record_item_nodes, right_nodes, signature_nodes};

use crate::decl::{Clause, Decl, File, RecordItem, Signature};
use crate::expr::{Arg, Binder, Expr, FieldValue};
use crate::pattern::Pattern;

/// The number of nodes of the file, or 2^64 - 1 where there are more. It takes no memory.
pub fn size(file: &File) -> u64
    ensures { result ≡ min (file_nodes file.now) (2 ^ 64 - 1) }
{
    file.size()
}

/// What is counted in lists that no expression and no pattern holds. The lists in those have loops of their own: a recursion through
/// a type parameter gets no proof.
trait Counted {
    // the number of nodes
    ghost nodes: { Self → ℕ };

    fn size(&self) -> u64
        ensures { result ≡ min (nodes self.now) (2 ^ 64 - 1) };
}

/// The number of nodes of all of the items.
fn size_of_items<T: Counted>(items: &[T]) -> u64
    ensures { result ≡ min (sum (map T.nodes items.now)) (2 ^ 64 - 1) }
{
    let mut size: u64 = 0;
    for item in items {
        size = size.saturating_add(item.size());
    }
    size
}

impl Expr {
    /// The number of nodes, or 2^64 - 1 where there are more.
    #[cycle(size)]
    #[tactic(auto, unfolding(crate::specs::Nodes::expr_nodes, crate::specs::Nodes::arg_nodes, crate::specs::Nodes::binder_nodes, crate::specs::Nodes::field_nodes))]
    pub fn size(&self) -> u64
        ensures { result ≡ min (expr_nodes self.now) (2 ^ 64 - 1) }
    {
        match self {
            Expr::Pi(_, binders, body)
            | Expr::Forall(_, binders, body)
            | Expr::Lambda(_, binders, body) => {
                size_of_binders(binders.as_slice())
                    .saturating_add(body.get().size())
                    .saturating_add(1)
            }
            Expr::Arrow(_, dom, cod) => {
                dom.get()
                    .size()
                    .saturating_add(cod.get().size())
                    .saturating_add(1)
            }
            Expr::App(_, head, args) => {
                head.get()
                    .size()
                    .saturating_add(size_of_args(args.as_slice()))
                    .saturating_add(1)
            }
            Expr::Record(_, fields) => size_of_fields(fields.as_slice()).saturating_add(1),
            Expr::Name(_)
            | Expr::Qualified(_)
            | Expr::SetLevel(_, _)
            | Expr::Hole(_)
            | Expr::Underscore(_) => 1,
        }
    }
}

impl Arg {
    /// The number of nodes, or 2^64 - 1 where there are more.
    #[cycle(size)]
    #[tactic(auto, unfolding(crate::specs::Nodes::expr_nodes, crate::specs::Nodes::arg_nodes, crate::specs::Nodes::binder_nodes, crate::specs::Nodes::field_nodes))]
    pub fn size(&self) -> u64
        ensures { result ≡ min (arg_nodes self.now) (2 ^ 64 - 1) }
    {
        match self {
            Arg::Plain(value) | Arg::Implicit(_, value) | Arg::Named(_, _, value) => {
                value.size().saturating_add(1)
            }
            Arg::Project(_, _) | Arg::ProjectQualified(_, _) => 1,
        }
    }
}

impl Binder {
    /// The number of nodes, or 2^64 - 1 where there are more. Names are none.
    #[cycle(size)]
    #[tactic(auto, unfolding(crate::specs::Nodes::expr_nodes, crate::specs::Nodes::arg_nodes, crate::specs::Nodes::binder_nodes, crate::specs::Nodes::field_nodes))]
    pub fn size(&self) -> u64
        ensures { result ≡ min (binder_nodes self.now) (2 ^ 64 - 1) }
    {
        match self {
            Binder::Explicit(_, _, ty) | Binder::Implicit(_, _, ty) => {
                ty.get().size().saturating_add(1)
            }
            Binder::Name(_) | Binder::Braced(_, _) | Binder::Underscore(_) => 1,
        }
    }
}

impl FieldValue {
    /// The number of nodes, or 2^64 - 1 where there are more.
    #[cycle(size)]
    #[tactic(auto, unfolding(crate::specs::Nodes::expr_nodes, crate::specs::Nodes::arg_nodes, crate::specs::Nodes::binder_nodes, crate::specs::Nodes::field_nodes))]
    pub fn size(&self) -> u64
        ensures { result ≡ min (field_nodes self.now) (2 ^ 64 - 1) }
    {
        self.value.size().saturating_add(1)
    }
}

#[cycle(size)]
fn size_of_binders(binders: &[Binder]) -> u64
    ensures { result ≡ min (sum (map binder_nodes binders.now)) (2 ^ 64 - 1) }
{
    let mut size: u64 = 0;
    for binder in binders {
        size = size.saturating_add(binder.size());
    }
    size
}

#[cycle(size)]
fn size_of_args(args: &[Arg]) -> u64
    ensures { result ≡ min (sum (map arg_nodes args.now)) (2 ^ 64 - 1) }
{
    let mut size: u64 = 0;
    for arg in args {
        size = size.saturating_add(arg.size());
    }
    size
}

#[cycle(size)]
fn size_of_fields(fields: &[FieldValue]) -> u64
    ensures { result ≡ min (sum (map field_nodes fields.now)) (2 ^ 64 - 1) }
{
    let mut size: u64 = 0;
    for field in fields {
        size = size.saturating_add(field.size());
    }
    size
}

impl Pattern {
    /// The number of nodes, or 2^64 - 1 where there are more.
    #[cycle(size_pattern)]
    #[tactic(auto, unfolding(crate::specs::Nodes::pattern_nodes))]
    pub fn size(&self) -> u64
        ensures { result ≡ min (pattern_nodes self.now) (2 ^ 64 - 1) }
    {
        match self {
            Pattern::Implicit(_, inner) | Pattern::Named(_, _, inner) => {
                inner.get().size().saturating_add(1)
            }
            Pattern::Name(_, _, patterns) => {
                size_of_patterns(patterns.as_slice()).saturating_add(1)
            }
            Pattern::Dotted(_, value) => value.size().saturating_add(1),
            Pattern::Project(_, _)
            | Pattern::ProjectQualified(_, _)
            | Pattern::Underscore(_)
            | Pattern::Absurd(_) => 1,
        }
    }
}

#[cycle(size_pattern)]
fn size_of_patterns(patterns: &[Pattern]) -> u64
    ensures { result ≡ min (sum (map pattern_nodes patterns.now)) (2 ^ 64 - 1) }
{
    let mut size: u64 = 0;
    for pattern in patterns {
        size = size.saturating_add(pattern.size());
    }
    size
}

impl Signature {
    /// The number of nodes, or 2^64 - 1 where there are more. Names are none.
    #[tactic(auto, unfolding(crate::specs::Nodes::signature_nodes))]
    pub fn size(&self) -> u64
        ensures { result ≡ min (signature_nodes self.now) (2 ^ 64 - 1) }
    {
        self.ty.size().saturating_add(1)
    }
}

fn size_of_right(right: &Option<Expr>) -> u64
    ensures { result ≡ min (right_nodes right.now) (2 ^ 64 - 1) }
{
    match right {
        Some(right) => right.size(),
        None => 0,
    }
}

impl Clause {
    /// The number of nodes, or 2^64 - 1 where there are more.
    #[tactic(auto, unfolding(crate::specs::Nodes::clause_nodes))]
    pub fn size(&self) -> u64
        ensures { result ≡ min (clause_nodes self.now) (2 ^ 64 - 1) }
    {
        size_of_patterns(self.patterns.as_slice())
            .saturating_add(size_of_right(&self.right))
            .saturating_add(1)
    }
}

impl RecordItem {
    /// The number of nodes, or 2^64 - 1 where there are more.
    #[tactic(auto, unfolding(crate::specs::Nodes::record_item_nodes))]
    pub fn size(&self) -> u64
        ensures { result ≡ min (record_item_nodes self.now) (2 ^ 64 - 1) }
    {
        match self {
            RecordItem::Field(_, fields) => size_of_items(fields.as_slice()).saturating_add(1),
            RecordItem::Inductive(_) | RecordItem::Coinductive(_) | RecordItem::Constructor(_, _) =>
                1,
        }
    }
}

impl Decl {
    /// The number of nodes, or 2^64 - 1 where there are more.
    #[tactic(auto, unfolding(crate::specs::Nodes::decl_nodes))]
    pub fn size(&self) -> u64
        ensures { result ≡ min (decl_nodes self.now) (2 ^ 64 - 1) }
    {
        match self {
            Decl::Postulate(_, signatures) => size_of_items(signatures.as_slice()).saturating_add(
                1,
            ),
            Decl::Function(_, signature, clauses) => signature
                .size()
                .saturating_add(size_of_items(clauses.as_slice()))
                .saturating_add(1),
            Decl::Clause(clause) => clause.size().saturating_add(1),
            Decl::Open(_, _, _) => 1,
            Decl::Data(_, _, binders, ty, cons) => size_of_binders(binders.as_slice())
                .saturating_add(ty.size())
                .saturating_add(size_of_items(cons.as_slice()))
                .saturating_add(1),
            Decl::Record(_, _, binders, ty, items) => size_of_binders(binders.as_slice())
                .saturating_add(ty.size())
                .saturating_add(size_of_items(items.as_slice()))
                .saturating_add(1),
        }
    }
}

impl File {
    /// The number of nodes, or 2^64 - 1 where there are more.
    #[tactic(auto, unfolding(crate::specs::Nodes::file_nodes))]
    pub fn size(&self) -> u64
        ensures { result ≡ min (file_nodes self.now) (2 ^ 64 - 1) }
    {
        size_of_items(self.decls.as_slice()).saturating_add(1)
    }
}

impl Counted for Signature {
    ghost nodes = { signature_nodes };

    fn size(&self) -> u64 {
        self.size()
    }
}

impl Counted for Clause {
    ghost nodes = { clause_nodes };

    fn size(&self) -> u64 {
        self.size()
    }
}

impl Counted for RecordItem {
    ghost nodes = { record_item_nodes };

    fn size(&self) -> u64 {
        self.size()
    }
}

impl Counted for Decl {
    ghost nodes = { decl_nodes };

    fn size(&self) -> u64 {
        self.size()
    }
}
