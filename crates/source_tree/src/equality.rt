//! Equality of trees, with texts, spans and positions. It takes no memory.

ghost use Rattle.std.specs.Prelude.{◌≡◌, ◌↔◌, IsTrue};

use crate::decl::{Clause, Decl, File, RecordItem, Signature};
use crate::expr::{Arg, Binder, Expr, FieldValue};
use crate::pattern::Pattern;
use crate::place::Name;

/// Whether the two declarations are equal, texts, spans and positions included. It takes no memory.
pub fn same(a: &Decl, b: &Decl) -> bool
    ensures { IsTrue result ↔ (a.now ≡ b.now) }
{
    a.same(b)
}

/// What is compared in lists that no expression and no pattern holds. The lists in those have loops of their own: a recursion through
/// a type parameter gets no proof.
trait Compared {
    fn same(&self, other: &Self) -> bool
        ensures { IsTrue result ↔ (self.now ≡ other.now) };
}

/// Whether the two lists are equal.
fn same_items<T: Compared>(items: &[T], others: &[T]) -> bool
    ensures { IsTrue result ↔ (items.now ≡ others.now) }
{
    if items.len() != others.len() {
        return false;
    }
    for i in 0..items.len() {
        if !items[i].same(&others[i]) {
            return false;
        }
    }
    true
}

impl Compared for Name {
    fn same(&self, other: &Name) -> bool {
        self.same(other)
    }
}

impl Expr {
    /// Whether the two are equal, places included.
    #[cycle(same)]
    pub fn same(&self, other: &Expr) -> bool
        ensures { IsTrue result ↔ (self.now ≡ other.now) }
    {
        match (self, other) {
            (Expr::Pi(place, binders, body), Expr::Pi(other, others, end))
            | (Expr::Forall(place, binders, body), Expr::Forall(other, others, end))
            | (Expr::Lambda(place, binders, body), Expr::Lambda(other, others, end)) => {
                place.same(other)
                    && same_binders(binders.as_slice(), others.as_slice())
                    && body.get().same(end.get())
            }
            (Expr::Arrow(place, dom, cod), Expr::Arrow(other, from, to)) => {
                place.same(other) && dom.get().same(from.get()) && cod.get().same(to.get())
            }
            (Expr::App(place, head, args), Expr::App(other, front, others)) => {
                place.same(other)
                    && head.get().same(front.get())
                    && same_args(args.as_slice(), others.as_slice())
            }
            (Expr::Name(name), Expr::Name(other))
            | (Expr::Qualified(name), Expr::Qualified(other)) => name.same(other),
            (Expr::SetLevel(place, level), Expr::SetLevel(other, end)) => {
                place.same(other) && level == end
            }
            (Expr::Hole(place), Expr::Hole(other))
            | (Expr::Underscore(place), Expr::Underscore(other)) => place.same(other),
            (Expr::Record(place, fields), Expr::Record(other, others)) => {
                place.same(other) && same_fields(fields.as_slice(), others.as_slice())
            }
            _ => false,
        }
    }
}

impl Arg {
    /// Whether the two are equal, places included.
    #[cycle(same)]
    pub fn same(&self, other: &Arg) -> bool
        ensures { IsTrue result ↔ (self.now ≡ other.now) }
    {
        match (self, other) {
            (Arg::Plain(value), Arg::Plain(other)) => value.same(other),
            (Arg::Implicit(place, value), Arg::Implicit(other, end)) => {
                place.same(other) && value.same(end)
            }
            (Arg::Named(place, name, value), Arg::Named(other, key, end)) => {
                place.same(other) && name.same(key) && value.same(end)
            }
            (Arg::Project(place, name), Arg::Project(other, end))
            | (Arg::ProjectQualified(place, name), Arg::ProjectQualified(other, end)) => {
                place.same(other) && name.same(end)
            }
            _ => false,
        }
    }
}

impl Binder {
    /// Whether the two are equal, places included.
    #[cycle(same)]
    pub fn same(&self, other: &Binder) -> bool
        ensures { IsTrue result ↔ (self.now ≡ other.now) }
    {
        match (self, other) {
            (Binder::Explicit(place, names, ty), Binder::Explicit(other, others, end))
            | (Binder::Implicit(place, names, ty), Binder::Implicit(other, others, end)) => {
                place.same(other)
                    && same_items(names.as_slice(), others.as_slice())
                    && ty.get().same(end.get())
            }
            (Binder::Name(name), Binder::Name(other)) => name.same(other),
            (Binder::Braced(place, name), Binder::Braced(other, end)) => {
                place.same(other) && name.same(end)
            }
            (Binder::Underscore(place), Binder::Underscore(other)) => place.same(other),
            _ => false,
        }
    }
}

impl FieldValue {
    /// Whether the two are equal, places included.
    #[cycle(same)]
    pub fn same(&self, other: &FieldValue) -> bool
        ensures { IsTrue result ↔ (self.now ≡ other.now) }
    {
        self.name.same(&other.name) && self.value.same(&other.value)
    }
}

/// Whether the two lists have equal binders.
#[cycle(same)]
fn same_binders(binders: &[Binder], others: &[Binder]) -> bool
    ensures { IsTrue result ↔ (binders.now ≡ others.now) }
{
    if binders.len() != others.len() {
        return false;
    }
    for i in 0..binders.len() {
        if !binders[i].same(&others[i]) {
            return false;
        }
    }
    true
}

/// Whether the two lists have equal arguments.
#[cycle(same)]
fn same_args(args: &[Arg], others: &[Arg]) -> bool
    ensures { IsTrue result ↔ (args.now ≡ others.now) }
{
    if args.len() != others.len() {
        return false;
    }
    for i in 0..args.len() {
        if !args[i].same(&others[i]) {
            return false;
        }
    }
    true
}

/// Whether the two lists have equal fields.
#[cycle(same)]
fn same_fields(fields: &[FieldValue], others: &[FieldValue]) -> bool
    ensures { IsTrue result ↔ (fields.now ≡ others.now) }
{
    if fields.len() != others.len() {
        return false;
    }
    for i in 0..fields.len() {
        if !fields[i].same(&others[i]) {
            return false;
        }
    }
    true
}

impl Pattern {
    /// Whether the two are equal, places included.
    #[cycle(same_pattern)]
    pub fn same(&self, other: &Pattern) -> bool
        ensures { IsTrue result ↔ (self.now ≡ other.now) }
    {
        match (self, other) {
            (Pattern::Implicit(place, inner), Pattern::Implicit(other, end)) => {
                place.same(other) && inner.get().same(end.get())
            }
            (Pattern::Named(place, name, inner), Pattern::Named(other, key, end)) => {
                place.same(other) && name.same(key) && inner.get().same(end.get())
            }
            (Pattern::Project(place, name), Pattern::Project(other, end))
            | (Pattern::ProjectQualified(place, name), Pattern::ProjectQualified(other, end)) => {
                place.same(other) && name.same(end)
            }
            (Pattern::Name(place, name, patterns), Pattern::Name(other, key, others)) => {
                place.same(other)
                    && name.same(key)
                    && same_patterns(patterns.as_slice(), others.as_slice())
            }
            (Pattern::Underscore(place), Pattern::Underscore(other))
            | (Pattern::Absurd(place), Pattern::Absurd(other)) => place.same(other),
            (Pattern::Dotted(place, value), Pattern::Dotted(other, end)) => {
                place.same(other) && value.same(end)
            }
            _ => false,
        }
    }
}

/// Whether the two lists have equal patterns.
#[cycle(same_pattern)]
fn same_patterns(patterns: &[Pattern], others: &[Pattern]) -> bool
    ensures { IsTrue result ↔ (patterns.now ≡ others.now) }
{
    if patterns.len() != others.len() {
        return false;
    }
    for i in 0..patterns.len() {
        if !patterns[i].same(&others[i]) {
            return false;
        }
    }
    true
}

impl Signature {
    /// Whether the two are equal, places included.
    pub fn same(&self, other: &Signature) -> bool
        ensures { IsTrue result ↔ (self.now ≡ other.now) }
    {
        self.place.same(&other.place)
            && same_items(self.names.as_slice(), other.names.as_slice())
            && self.ty.same(&other.ty)
    }
}

/// Whether both right sides are left out, or both are there and equal.
fn same_right(right: &Option<Expr>, other: &Option<Expr>) -> bool
    ensures { IsTrue result ↔ (right.now ≡ other.now) }
{
    match (right, other) {
        (Some(right), Some(other)) => right.same(other),
        (None, None) => true,
        _ => false,
    }
}

impl Clause {
    /// Whether the two are equal, places included.
    pub fn same(&self, other: &Clause) -> bool
        ensures { IsTrue result ↔ (self.now ≡ other.now) }
    {
        self.place.same(&other.place)
            && self.name.same(&other.name)
            && same_patterns(self.patterns.as_slice(), other.patterns.as_slice())
            && same_right(&self.right, &other.right)
    }
}

impl RecordItem {
    /// Whether the two are equal, places included.
    pub fn same(&self, other: &RecordItem) -> bool
        ensures { IsTrue result ↔ (self.now ≡ other.now) }
    {
        match (self, other) {
            (RecordItem::Inductive(place), RecordItem::Inductive(other))
            | (RecordItem::Coinductive(place), RecordItem::Coinductive(other)) => place.same(other),
            (RecordItem::Constructor(place, name), RecordItem::Constructor(other, end)) => {
                place.same(other) && name.same(end)
            }
            (RecordItem::Field(place, fields), RecordItem::Field(other, others)) => {
                place.same(other) && same_items(fields.as_slice(), others.as_slice())
            }
            _ => false,
        }
    }
}

impl Decl {
    /// Whether the two are equal, places included.
    pub fn same(&self, other: &Decl) -> bool
        ensures { IsTrue result ↔ (self.now ≡ other.now) }
    {
        match (self, other) {
            (Decl::Postulate(place, signatures), Decl::Postulate(other, others)) => {
                place.same(other) && same_items(signatures.as_slice(), others.as_slice())
            }
            (Decl::Function(place, signature, clauses), Decl::Function(other, front, others)) => {
                place.same(other)
                    && signature.same(front)
                    && same_items(clauses.as_slice(), others.as_slice())
            }
            (Decl::Clause(clause), Decl::Clause(other)) => clause.same(other),
            (Decl::Open(place, name, public), Decl::Open(other, key, end)) => {
                place.same(other) && name.same(key) && public == end
            }
            (
                Decl::Data(place, name, binders, ty, cons),
                Decl::Data(other, key, params, end, others),
            ) => {
                place.same(other)
                    && name.same(key)
                    && same_binders(binders.as_slice(), params.as_slice())
                    && ty.same(end)
                    && same_items(cons.as_slice(), others.as_slice())
            }
            (
                Decl::Record(place, name, binders, ty, items),
                Decl::Record(other, key, params, end, others),
            ) => {
                place.same(other)
                    && name.same(key)
                    && same_binders(binders.as_slice(), params.as_slice())
                    && ty.same(end)
                    && same_items(items.as_slice(), others.as_slice())
            }
            _ => false,
        }
    }
}

impl File {
    /// Whether the two are equal, places included.
    pub fn same(&self, other: &File) -> bool
        ensures { IsTrue result ↔ (self.now ≡ other.now) }
    {
        self.place.same(&other.place) && same_items(self.decls.as_slice(), other.decls.as_slice())
    }
}

impl Compared for Signature {
    fn same(&self, other: &Signature) -> bool {
        self.same(other)
    }
}

impl Compared for Clause {
    fn same(&self, other: &Clause) -> bool {
        self.same(other)
    }
}

impl Compared for RecordItem {
    fn same(&self, other: &RecordItem) -> bool {
        self.same(other)
    }
}

impl Compared for Decl {
    fn same(&self, other: &Decl) -> bool {
        self.same(other)
    }
}
