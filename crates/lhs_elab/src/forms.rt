//! What is seen of a pattern before it is read: how it is written, where it stands, and where its variable comes from.

ghost use Rattle.std.specs.Prelude.{◌≡◌, ℕ};
ghost use Rattle.core_rules.specs.Term.{Term};
ghost use Rattle.core_rules.specs.Signature.{Signature};
ghost use Rattle.core_terms.specs.Pattern.{braces_of, origin_of};
ghost use Rattle.lhs_rules.specs.Rules.{braces_of as braces_by};
ghost use Rattle.lhs_rules.specs.Patterns.{inside, pattern_meaning};
ghost use Rattle.lhs_elab.specs.Dues.{field_in, written_of};

use crate::due::Written;
use core_terms::{Braces, FieldId, Origin};
use el_outside::Pos;
use resolved_tree::ResolvedPattern;

/// How a pattern or a projection of a clause is written.
pub(crate) fn how_written(pattern: &ResolvedPattern) -> Written
    ensures { (g : Signature Term) (f : ℕ) → result ≡ written_of (pattern_meaning g f pattern.now).next }
{
    match pattern {
        ResolvedPattern::Implicit(_, _) => Written::Braces,
        ResolvedPattern::Named(_, name, _) => Written::Named(name.id),
        ResolvedPattern::Project(_, _) => Written::Project,
        ResolvedPattern::Variable(_) => Written::Plain,
        ResolvedPattern::Con(_, _, _) => Written::Plain,
        ResolvedPattern::Underscore(_) => Written::Plain,
        ResolvedPattern::Absurd(_) => Written::Plain,
        ResolvedPattern::Dotted(_, _) => Written::Plain,
    }
}

/// The braces of a pattern.
pub(crate) fn braces(pattern: &ResolvedPattern) -> Braces
    ensures { (g : Signature Term) (f : ℕ) → braces_of result ≡ braces_by (pattern_meaning g f pattern.now).next }
{
    match pattern {
        ResolvedPattern::Implicit(_, _) => Braces::Plain,
        ResolvedPattern::Named(_, name, _) => Braces::Named(name.id),
        ResolvedPattern::Project(_, _) => Braces::Without,
        ResolvedPattern::Variable(_) => Braces::Without,
        ResolvedPattern::Con(_, _, _) => Braces::Without,
        ResolvedPattern::Underscore(_) => Braces::Without,
        ResolvedPattern::Absurd(_) => Braces::Without,
        ResolvedPattern::Dotted(_, _) => Braces::Without,
    }
}

/// The field of a projection.
pub(crate) fn field_of(pattern: &ResolvedPattern) -> Option<FieldId>
    ensures { (g : Signature Term) (f : ℕ) → result ≡ field_in (pattern_meaning g f pattern.now).next }
{
    match pattern {
        ResolvedPattern::Project(_, field) => Some(*field),
        ResolvedPattern::Implicit(_, _) => None,
        ResolvedPattern::Named(_, _, _) => None,
        ResolvedPattern::Variable(_) => None,
        ResolvedPattern::Con(_, _, _) => None,
        ResolvedPattern::Underscore(_) => None,
        ResolvedPattern::Absurd(_) => None,
        ResolvedPattern::Dotted(_, _) => None,
    }
}

/// Where a pattern or a projection stands.
pub(crate) fn position(pattern: &ResolvedPattern) -> Pos
    ensures { (g : Signature Term) (f : ℕ) → result ≡ (pattern_meaning g f pattern.now).pos }
{
    match pattern {
        ResolvedPattern::Implicit(place, _) => place.pos,
        ResolvedPattern::Named(place, _, _) => place.pos,
        ResolvedPattern::Project(place, _) => place.pos,
        ResolvedPattern::Variable(name) => name.place.pos,
        ResolvedPattern::Con(place, _, _) => place.pos,
        ResolvedPattern::Underscore(place) => place.pos,
        ResolvedPattern::Absurd(place) => place.pos,
        ResolvedPattern::Dotted(place, _) => place.pos,
    }
}

/// Where the variable of a pattern comes from.
pub(crate) fn origin(pattern: &ResolvedPattern) -> Origin
    ensures { (g : Signature Term) (f : ℕ) → origin_of result ≡ (inside (pattern_meaning g f pattern.now)).origin }
{
    match pattern {
        ResolvedPattern::Implicit(_, inner) => origin(inner.get()),
        ResolvedPattern::Named(_, _, inner) => origin(inner.get()),
        ResolvedPattern::Project(_, _) => Origin::Written,
        ResolvedPattern::Variable(name) => Origin::Variable {
            name: name.id,
            fresh: false,
        },
        ResolvedPattern::Con(_, _, _) => Origin::Written,
        ResolvedPattern::Underscore(_) => Origin::Underscore,
        ResolvedPattern::Absurd(_) => Origin::Written,
        ResolvedPattern::Dotted(_, _) => Origin::Written,
    }
}
