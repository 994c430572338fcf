ghost use Rattle.std.specs.Prelude.{◌≡◌, ◌-◌, length, take};
ghost use Rattle.expr_parser.specs.Cursor as spec;
ghost use Rattle.expr_parser.specs.Cursor.{Reads};
ghost use Rattle.agda_grammar.specs.Declarations as trees;
ghost use Rattle.parse_laws.specs.Parser as laws;

use crate::stop::Stop;
use agda_grammar::{Kind, Mark, Sign};
use std::marker::Model;

/// The signs that are left.
#[derive(Drop)]
pub struct Signs<'a> {
    rest: &'a [Sign],
}

impl<'a> Model for Signs<'a> {
    ghost use Rattle.std.specs.Prelude.{List};
    ghost use Rattle.agda_grammar.specs.declared.sign.Sign.{Sign};

    ghost Value = { List Sign };

    ghost view = { λ s. s.rest.now };
}

#[tactic(auto, unfolding(crate::specs::Cursor::same_kind))]
fn same_kind(a: Kind, b: Kind) -> bool
    ensures { result ≡ spec.same_kind a b }
{
    a == b
}

impl<'a> Signs<'a> {
    /// The signs of a list, of which none is taken.
    pub fn new(rest: &'a [Sign]) -> Signs<'a>
        ensures value { result ≡ rest.now }
    {
        Signs { rest }
    }

    /// The same signs, to be compared with later.
    pub fn copy(&self) -> Signs<'a>
        ensures value { result ≡ self.now }
    {
        Signs { rest: self.rest }
    }

    /// The end of the last of the signs that were taken of those before, or `end` where there is none.
    pub fn end_since(&self, before: &Signs<'_>, end: u32) -> u32
        ensures value { result ≡ trees.last_end end (take (length before.now - length self.now) before.now) }
    {
        let mut last = end;
        for sign in &before.rest[..before.left().saturating_sub(self.left())] {
            last = sign.mark.place.span.end;
        }
        last
    }

    /// How many signs are left.
    pub fn left(&self) -> usize
        ensures value { result ≡ length self.now }
    {
        self.rest.len()
    }

    /// Whether the next sign is of the kind.
    pub fn sees(&self, kind: Kind) -> bool
        ensures value { result ≡ spec.sees kind self.now }
    {
        match self.rest {
            [first, ..] => same_kind(first.kind, kind),
            [] => false,
        }
    }

    /// Takes a sign of the kind. Any other sign, and none, stops the reading there.
    #[tactic(auto, unfolding(crate::specs::Cursor::expect, parse_laws::specs::Parser::one))]
    pub fn expect(&mut self, kind: Kind) -> Result<Mark, Stop>
        ensures reads { Reads (spec.expect kind self.old) result self.new }
    {
        match self.rest {
            [] => Err(Stop::Unexpected(0)),
            [first, rest @ ..] => {
                if same_kind(first.kind, kind) {
                    self.rest = rest;
                    Ok(first.mark)
                } else {
                    Err(Stop::Unexpected(self.rest.len()))
                }
            }
        }
    }

    /// Reads nothing: a sign that is left stops the reading there.
    #[tactic(auto, unfolding(parse_laws::specs::Parser::at_end))]
    pub fn at_end(&mut self) -> Result<(), Stop>
        ensures reads { Reads (laws.at_end self.old) result self.new }
    {
        let left = self.left();
        if left == 0 {
            Ok(())
        } else {
            Err(Stop::Unexpected(left))
        }
    }

    /// Whether an atom that is not in parentheses comes next.
    pub(crate) fn begins_atom(&self) -> bool
        ensures { result ≡ spec.sees_atom self.now }
    {
        match self.rest {
            [first, ..] => begins_atom(first.kind),
            [] => false,
        }
    }

    /// Whether names, at least one, and then a colon come next.
    pub fn colon_follows(&self) -> bool
        ensures value { result ≡ spec.colon_follows self.now }
    {
        colon_follows(self.rest)
    }

    /// Whether a name and `=` come next.
    pub(crate) fn equals_follows(&self) -> bool
        ensures { result ≡ spec.equals_follows self.now }
    {
        match self.rest {
            [first, second, ..] => {
                same_kind(first.kind, Kind::Name) && same_kind(second.kind, Kind::Equals)
            }
            [_] => false,
            [] => false,
        }
    }
}

#[tactic(auto, unfolding(crate::specs::Cursor::begins_atom))]
fn begins_atom(kind: Kind) -> bool
    ensures { result ≡ spec.begins_atom kind }
{
    match kind {
        Kind::Name
        | Kind::Qualified
        | Kind::SetLevel
        | Kind::Hole
        | Kind::Underscore
        | Kind::Record => true,
        _ => false,
    }
}

#[tactic(auto, unfolding(crate::specs::Cursor::colon_follows))]
fn colon_follows(signs: &[Sign]) -> bool
    ensures { result ≡ spec.colon_follows signs.now }
{
    match signs {
        [first, rest @ ..] => same_kind(first.kind, Kind::Name) && names_colon(rest),
        [] => false,
    }
}

#[tactic(auto, unfolding(crate::specs::Cursor::names_colon))]
fn names_colon(mut signs: &[Sign]) -> bool
    ensures { result ≡ spec.names_colon signs.entry.now }
{
    while let [first, rest @ ..] = signs {
        if !same_kind(first.kind, Kind::Name) {
            return same_kind(first.kind, Kind::Colon);
        }
        signs = rest;
    }
    false
}
