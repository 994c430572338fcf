ghost use Rattle.std.specs.Prelude.{◌≡◌};

use crate::place::{Name, Place};
use el_base::Level;
use sqlite_items::{Boxed, Items};

/// An expression. Parentheses leave no node: an application whose head is an application in parentheses is one
/// application, and places leave parentheses out.
#[cycle(tree)]
#[derive(Debug, Drop)]
pub enum Expr {
    /// `(x y : A) {z : B} → e`: the binders, and what follows the arrow.
    Pi(Place, Items<Binder>, Boxed<Expr>),
    /// `∀ x {y} (z : A) → e`.
    Forall(Place, Items<Binder>, Boxed<Expr>),
    /// `λ x _ {y} (z : A) → e`.
    Lambda(Place, Items<Binder>, Boxed<Expr>),
    /// `A → B`.
    Arrow(Place, Boxed<Expr>, Boxed<Expr>),
    /// `f x {y} {z = e} .p`: the head, which is no application, and one argument or more.
    App(Place, Boxed<Expr>, Items<Arg>),
    /// `x`.
    Name(Name),
    /// `R.f`.
    Qualified(Name),
    /// `Set` with its level; `Set` alone has level 0.
    SetLevel(Place, Level),
    /// `?`, or `{! .. !}`.
    Hole(Place),
    /// `_`.
    Underscore(Place),
    /// `record { f = e ; g = e' }`.
    Record(Place, Items<FieldValue>),
}

/// An argument of an application.
#[cycle(tree)]
#[derive(Debug, Drop)]
pub enum Arg {
    /// `e`, an atom.
    Plain(Expr),
    /// `{e}`.
    Implicit(Place, Expr),
    /// `{x = e}`.
    Named(Place, Name, Expr),
    /// `.f`: it stands at the dot, and its name behind it.
    Project(Place, Name),
    /// `.R.f`.
    ProjectQualified(Place, Name),
}

/// A binder of a function type, of `∀` or of `λ`.
#[cycle(tree)]
#[derive(Debug, Drop)]
pub enum Binder {
    /// `(x y : A)`.
    Explicit(Place, Items<Name>, Boxed<Expr>),
    /// `{x y : A}`.
    Implicit(Place, Items<Name>, Boxed<Expr>),
    /// `x`, of `∀` or `λ`.
    Name(Name),
    /// `{x}`, of `∀` or `λ`: it stands at the brace.
    Braced(Place, Name),
    /// `_`, of `λ`.
    Underscore(Place),
}

/// `f = e`, in `record { .. }`.
#[cycle(tree)]
#[derive(Debug, Drop)]
pub struct FieldValue {
    pub name: Name,
    pub value: Expr,
}

impl Expr {
    ghost use Rattle.source_tree.specs.Places.{expr_place};

    #[tactic(auto, unfolding(crate::specs::Places::expr_place))]
    pub fn place(&self) -> Place
        ensures { result ≡ expr_place self.now }
    {
        match self {
            Expr::Pi(place, _, _)
            | Expr::Forall(place, _, _)
            | Expr::Lambda(place, _, _)
            | Expr::Arrow(place, _, _)
            | Expr::App(place, _, _)
            | Expr::SetLevel(place, _)
            | Expr::Hole(place)
            | Expr::Underscore(place)
            | Expr::Record(place, _) => *place,
            Expr::Name(name) | Expr::Qualified(name) => name.place,
        }
    }
}

impl Arg {
    ghost use Rattle.source_tree.specs.Places.{arg_place};

    #[tactic(auto, unfolding(crate::specs::Places::arg_place))]
    pub fn place(&self) -> Place
        ensures { result ≡ arg_place self.now }
    {
        match self {
            Arg::Plain(value) => value.place(),
            Arg::Implicit(place, _)
            | Arg::Named(place, _, _)
            | Arg::Project(place, _)
            | Arg::ProjectQualified(place, _) => *place,
        }
    }
}

impl Binder {
    ghost use Rattle.source_tree.specs.Places.{binder_place};

    #[tactic(auto, unfolding(crate::specs::Places::binder_place))]
    pub fn place(&self) -> Place
        ensures { result ≡ binder_place self.now }
    {
        match self {
            Binder::Name(name) => name.place,
            Binder::Explicit(place, _, _)
            | Binder::Implicit(place, _, _)
            | Binder::Braced(place, _)
            | Binder::Underscore(place) => *place,
        }
    }
}
