use el_base::Level;
use source_tree::Place;
use sqlite_items::{Boxed, Items};
use term_pool::{ConId, DefId, FamId, FieldId, NameId};

/// A name that is bound, declared or written as a label: the number of its text.
#[derive(Clone, Copy, Debug, PartialEq, Eq)]
pub struct ResolvedName {
    pub id: NameId,
    pub place: Place,
}

/// An expression whose names are resolved. It has the shape of the source tree, and each part the place that it has there.
///
/// A variable is its de Bruijn index. Each name of a typed binder, each untyped binder and each `_` of `λ` binds one, the last
/// the innermost; an arrow binds one that has no name, so its right side stands under one variable more.
#[cycle(resolved)]
#[derive(Debug, Drop)]
pub enum ResolvedExpr {
    /// `(x y : A) {z : B} → e`.
    Pi(Place, Items<ResolvedBinder>, Boxed<ResolvedExpr>),
    /// `∀ x {y} (z : A) → e`.
    Forall(Place, Items<ResolvedBinder>, Boxed<ResolvedExpr>),
    /// `λ x _ {y} (z : A) → e`.
    Lambda(Place, Items<ResolvedBinder>, Boxed<ResolvedExpr>),
    /// `A → B`.
    Arrow(Place, Boxed<ResolvedExpr>, Boxed<ResolvedExpr>),
    /// The head, which is no application, and one argument or more. An application `f e x` of a field is `e .f x`, and keeps the
    /// place of `f e x`; its projection stands at `f`.
    App(Place, Boxed<ResolvedExpr>, Items<ResolvedArg>),
    /// A variable by its index, which counts from the innermost.
    Variable(Place, u32),
    /// A postulate or a function.
    Def(Place, DefId),
    /// A data or record type.
    Family(Place, FamId),
    Con(Place, ConId),
    SetLevel(Place, Level),
    Hole(Place),
    Underscore(Place),
    /// `record { f = e ; g = e' }`. Its labels are names: whether they are those of a record's fields is not asked here.
    Record(Place, Items<ResolvedValue>),
}

/// An argument of an application.
#[cycle(resolved)]
#[derive(Debug, Drop)]
pub enum ResolvedArg {
    Plain(ResolvedExpr),
    /// `{e}`.
    Implicit(Place, ResolvedExpr),
    /// `{x = e}`.
    Named(Place, ResolvedName, ResolvedExpr),
    /// `.f` or `.R.f`, at the dot, or a field that stood as a head, at its name.
    Project(Place, FieldId),
}

/// A binder of a function type, of `∀` or of `λ`.
#[cycle(resolved)]
#[derive(Debug, Drop)]
pub enum ResolvedBinder {
    /// `(x y : A)`. The type stands before the names.
    Explicit(Place, Items<ResolvedName>, Boxed<ResolvedExpr>),
    /// `{x y : A}`.
    Implicit(Place, Items<ResolvedName>, Boxed<ResolvedExpr>),
    /// `x`, of `∀` or `λ`.
    Name(ResolvedName),
    /// `{x}`, of `∀` or `λ`.
    Braced(Place, ResolvedName),
    /// `_`, of `λ`.
    Underscore(Place),
}

/// `f = e`, in `record { .. }`.
#[cycle(resolved)]
#[derive(Debug, Drop)]
pub struct ResolvedValue {
    pub name: ResolvedName,
    pub value: ResolvedExpr,
}

/// A pattern or another elimination of a left side.
#[derive(Debug, Drop)]
pub enum ResolvedPattern {
    /// `{p}`.
    Implicit(Place, Boxed<ResolvedPattern>),
    /// `{x = p}`.
    Named(Place, ResolvedName, Boxed<ResolvedPattern>),
    /// `.f` or `.R.f`, at the dot.
    Project(Place, FieldId),
    /// A variable. The variables of a left side are numbered from left to right; the right side and the dotted patterns stand
    /// under all of them, the last one the innermost.
    Variable(ResolvedName),
    /// A constructor with its patterns.
    Con(Place, ConId, Items<ResolvedPattern>),
    Underscore(Place),
    /// `()`.
    Absurd(Place),
    /// `.(e)`, or a dot before a name that is no field, at the dot.
    Dotted(Place, ResolvedExpr),
}

/// A clause of a function. It stands at its name.
#[derive(Debug, Drop)]
pub struct ResolvedClause {
    pub place: Place,
    pub function: DefId,
    pub patterns: Items<ResolvedPattern>,
    pub right: Option<ResolvedExpr>,
}

/// `x y : A`. The type stands before the names.
#[derive(Debug, Drop)]
pub struct ResolvedSignature {
    pub place: Place,
    pub names: Items<ResolvedName>,
    pub ty: ResolvedExpr,
}

/// A part of a record's declaration.
#[derive(Debug, Drop)]
pub enum ResolvedItem {
    Inductive(Place),
    Coinductive(Place),
    Constructor(Place, ResolvedName),
    /// `field` and its block. Each type stands under the parameters and the fields of the signatures before it.
    Field(Place, Items<ResolvedSignature>),
}

/// A declaration whose names are resolved.
#[derive(Debug, Drop)]
pub enum Resolved {
    /// `postulate` and its block.
    Postulate(Place, Items<ResolvedSignature>),
    /// A signature of one name, and its clauses, of which there is at least one.
    Function(Place, ResolvedSignature, Items<ResolvedClause>),
    /// `open R`, and whether `public` follows.
    Open(Place, FamId, bool),
    /// A data type with its parameters, the type after the colon under these, and its constructors, whose types stand under the
    /// parameters too.
    Data(Place, ResolvedName, Items<ResolvedBinder>, ResolvedExpr, Items<ResolvedSignature>),
    /// A record type, likewise.
    Record(Place, ResolvedName, Items<ResolvedBinder>, ResolvedExpr, Items<ResolvedItem>),
}
