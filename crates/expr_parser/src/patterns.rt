ghost use Rattle.std.specs.Prelude.{◌≡◌, IfOk};
ghost use Rattle.expr_parser.specs.PatternSyntax as spec;
ghost use Rattle.agda_grammar.specs.Patterns as trees;
ghost use Rattle.expr_parser.specs.Cursor.{Reads};
ghost use Rattle.expr_parser.specs.Cursor as signs_spec;
ghost use Rattle.parse_laws.specs.Parser as laws;
ghost use Rattle.agda_grammar.specs.declared.sign.Kind.TheVariants as k;

use crate::cursor::Signs;
use crate::exprs::read_expr;
use crate::name::name_of;
use crate::names::read_name;
use crate::stop::Stop;
use agda_grammar::{Kind, Mark};
use el_outside::NoMemory;
use source_tree::{Pattern, Place};
use sqlite_items::{Boxed, Items};
use std::alloc::Global;

/// The place of the last pattern, or `place` where there is none.
fn last_pattern(place: Place, patterns: &[Pattern]) -> Place
    ensures { result ≡ trees.last_pattern place patterns.now }
{
    let mut last = place;
    for pattern in patterns {
        last = pattern.place();
    }
    last
}

/// A name with its eliminations.
fn matched(
    alloc: Global,
    text: &str,
    mark: Mark,
    patterns: Items<Pattern>,
) -> Result<Pattern, NoMemory>
    ensures { IfOk result (λ x. x ≡ trees.matched text.now mark patterns) }
{
    let place = mark.place.to(last_pattern(mark.place, patterns.as_slice()));
    Ok(Pattern::Name(place, name_of(alloc, text, mark)?, patterns))
}

/// Reads what follows the dot and the parenthesis of a pattern.
#[tactic(auto, unfolding(crate::specs::PatternSyntax::dotted_pattern))]
fn dotted_pattern(
    alloc: Global,
    text: &str,
    signs: &mut Signs<'_>,
    turns: usize,
    dot: Mark,
) -> Result<Pattern, Stop>
    ensures { Reads (spec.dotted_pattern text.now turns (spec.pattern text.now turns) dot signs.old) result signs.new }
{
    let found = read_expr(alloc, text, signs, turns)?;
    let close = signs.expect(Kind::ParenClose)?;
    Ok(Pattern::Dotted(dot.place.to(close.place), found))
}

/// Reads what follows the dot of an elimination.
#[tactic(auto, unfolding(crate::specs::PatternSyntax::dot_elim))]
fn dot_elim(
    alloc: Global,
    text: &str,
    signs: &mut Signs<'_>,
    turns: usize,
    dot: Mark,
) -> Result<Pattern, Stop>
    ensures { Reads (spec.dot_elim text.now turns (spec.pattern text.now turns) dot signs.old) result signs.new }
{
    if signs.sees(Kind::Name) {
        let mark = signs.expect(Kind::Name)?;
        Ok(Pattern::Project(dot.place.to(mark.place), name_of(alloc, text, mark)?))
    } else if signs.sees(Kind::Qualified) {
        let mark = signs.expect(Kind::Qualified)?;
        Ok(Pattern::ProjectQualified(dot.place.to(mark.place), name_of(alloc, text, mark)?))
    } else {
        signs.expect(Kind::ParenOpen)?;
        dotted_pattern(alloc, text, signs, turns, dot)
    }
}

/// Reads what follows the parenthesis of a pattern.
#[tactic(auto, unfolding(crate::specs::PatternSyntax::round_pattern))]
#[cycle(pattern)]
fn round_pattern(
    alloc: Global,
    text: &str,
    signs: &mut Signs<'_>,
    turns: usize,
    opening: Mark,
) -> Result<Pattern, Stop>
    ensures { Reads (spec.round_pattern text.now turns (spec.pattern text.now turns) opening signs.old) result signs.new }
{
    if signs.sees(Kind::ParenClose) {
        let close = signs.expect(Kind::ParenClose)?;
        Ok(Pattern::Absurd(opening.place.to(close.place)))
    } else {
        let found = pattern(alloc, text, signs, turns)?;
        signs.expect(Kind::ParenClose)?;
        Ok(found)
    }
}

/// Reads what follows the brace of an elimination.
#[tactic(auto, unfolding(crate::specs::PatternSyntax::braced_elim, crate::specs::PatternSyntax::named_elim, crate::specs::PatternSyntax::implicit_elim))]
#[cycle(pattern)]
fn braced_elim(
    alloc: Global,
    text: &str,
    signs: &mut Signs<'_>,
    turns: usize,
    opening: Mark,
) -> Result<Pattern, Stop>
    ensures { Reads (spec.braced_elim text.now turns (spec.pattern text.now turns) opening signs.old) result signs.new }
{
    if signs.equals_follows() {
        let name = read_name(alloc, text, signs)?;
        signs.expect(Kind::Equals)?;
        let value = Boxed::new(alloc, pattern(alloc, text, signs, turns)?)?;
        let close = signs.expect(Kind::BraceClose)?;
        Ok(Pattern::Named(opening.place.to(close.place), name, value))
    } else {
        let value = Boxed::new(alloc, pattern(alloc, text, signs, turns)?)?;
        let close = signs.expect(Kind::BraceClose)?;
        Ok(Pattern::Implicit(opening.place.to(close.place), value))
    }
}

#[tactic(auto, unfolding(crate::specs::PatternSyntax::one_elim, crate::specs::PatternSyntax::elimination))]
#[cycle(pattern)]
fn one_elim(
    alloc: Global,
    text: &str,
    signs: &mut Signs<'_>,
    turns: usize,
) -> Result<Option<Pattern>, Stop>
    ensures { Reads (spec.one_elim text.now turns (spec.pattern text.now turns) signs.old) result signs.new }
{
    if signs.sees(Kind::BraceOpen) {
        let opening = signs.expect(Kind::BraceOpen)?;
        Ok(Some(braced_elim(alloc, text, signs, turns, opening)?))
    } else if signs.sees(Kind::Dot) {
        let dot = signs.expect(Kind::Dot)?;
        Ok(Some(dot_elim(alloc, text, signs, turns, dot)?))
    } else if signs.sees(Kind::ParenOpen) {
        let opening = signs.expect(Kind::ParenOpen)?;
        Ok(Some(round_pattern(alloc, text, signs, turns, opening)?))
    } else if signs.sees(Kind::Underscore) {
        Ok(Some(Pattern::Underscore(signs.expect(Kind::Underscore)?.place)))
    } else if signs.sees(Kind::Name) {
        let mark = signs.expect(Kind::Name)?;
        Ok(Some(matched(alloc, text, mark, Items::new(alloc))?))
    } else {
        Ok(None)
    }
}

/// Reads eliminations, the patterns and projections of a left side, while they come. `turns` is more than the signs that are left.
#[cycle(pattern)]
pub fn read_elims(
    alloc: Global,
    text: &str,
    signs: &mut Signs<'_>,
    turns: usize,
) -> Result<Items<Pattern>, Stop>
    ensures reads { Reads (spec.elims text.now turns (spec.pattern text.now turns) signs.old) result signs.new }
{
    let mut found = Items::new(alloc);
    for _turn in 0..turns {
        match one_elim(alloc, text, signs, turns)? {
            Some(pattern) => found.push(pattern)?,
            None => return Ok(found),
        }
    }
    Ok(found)
}

#[tactic(auto, unfolding(crate::specs::PatternSyntax::pattern_level))]
#[cycle(pattern)]
fn pattern_level(
    alloc: Global,
    text: &str,
    signs: &mut Signs<'_>,
    turns: usize,
) -> Result<Pattern, Stop>
    ensures { Reads (spec.pattern_level text.now turns (spec.pattern text.now turns) signs.old) result signs.new }
{
    if signs.sees(Kind::Name) {
        let mark = signs.expect(Kind::Name)?;
        let patterns = read_elims(alloc, text, signs, turns)?;
        Ok(matched(alloc, text, mark, patterns)?)
    } else if signs.sees(Kind::Underscore) {
        Ok(Pattern::Underscore(signs.expect(Kind::Underscore)?.place))
    } else if signs.sees(Kind::ParenOpen) {
        let opening = signs.expect(Kind::ParenOpen)?;
        round_pattern(alloc, text, signs, turns, opening)
    } else {
        let dot = signs.expect(Kind::Dot)?;
        signs.expect(Kind::ParenOpen)?;
        dotted_pattern(alloc, text, signs, turns, dot)
    }
}

/// Reads a pattern. `turns` is more than the signs that are left.
#[cycle(pattern)]
pub fn pattern(
    alloc: Global,
    text: &str,
    signs: &mut Signs<'_>,
    turns: usize,
) -> Result<Pattern, Stop>
    ensures { Reads (spec.pattern text.now turns signs.old) result signs.new }
{
    if turns == 0 {
        return Err(Stop::Unexpected(signs.left()));
    }
    pattern_level(alloc, text, signs, turns - 1)
}
