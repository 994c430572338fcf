ghost use Rattle.std.specs.Prelude.{◌≡◌};

use crate::expr::Expr;
use crate::place::{Name, Place};
use sqlite_items::{Boxed, Items};

/// A pattern, or another elimination of a left side.
#[derive(Debug, Drop)]
pub enum Pattern {
    /// `{p}`.
    Implicit(Place, Boxed<Pattern>),
    /// `{x = p}`.
    Named(Place, Name, Boxed<Pattern>),
    /// `.f`: it stands at the dot, and its name behind it.
    Project(Place, Name),
    /// `.R.f`.
    ProjectQualified(Place, Name),
    /// `x`, or `c p q` with one elimination or more.
    Name(Place, Name, Items<Pattern>),
    /// `_`.
    Underscore(Place),
    /// `()`.
    Absurd(Place),
    /// `.(e)`: it stands at the dot.
    Dotted(Place, Expr),
}

impl Pattern {
    ghost use Rattle.source_tree.specs.Places.{pattern_place};

    #[tactic(auto, unfolding(crate::specs::Places::pattern_place))]
    pub fn place(&self) -> Place
        ensures { result ≡ pattern_place self.now }
    {
        match self {
            Pattern::Implicit(place, _)
            | Pattern::Named(place, _, _)
            | Pattern::Project(place, _)
            | Pattern::ProjectQualified(place, _)
            | Pattern::Name(place, _, _)
            | Pattern::Underscore(place)
            | Pattern::Absurd(place)
            | Pattern::Dotted(place, _) => *place,
        }
    }
}
