ghost use Rattle.std.specs.Prelude.{◌≡◌, [], IfOk};
ghost use Rattle.expr_parser.specs.Syntax as spec;
ghost use Rattle.expr_parser.specs.Cursor.{Reads};
ghost use Rattle.expr_parser.specs.Cursor as signs_spec;
ghost use Rattle.parse_laws.specs.Parser as laws;
ghost use Rattle.agda_grammar.specs.declared.sign.Kind.TheVariants as k;

use crate::cursor::Signs;
use crate::form::{applied, close_of, typed_binder};
use crate::name::name_of;
use crate::names::{read_name, read_names};
use crate::quantifier::Quantifier;
use crate::stop::Stop;
use agda_grammar::{Bracket, Kind, Mark};
use source_tree::{Arg, Binder, Expr, FieldValue, Name};
use sqlite_items::{Boxed, Items};
use std::alloc::{AllocError, Global};

/// Reads what follows the bracket and the first name of a typed binder.
#[tactic(auto, unfolding(crate::specs::Syntax::typed_from))]
#[cycle(expr)]
fn typed_from(
    alloc: Global,
    text: &str,
    signs: &mut Signs<'_>,
    turns: usize,
    bracket: Bracket,
    opening: Mark,
    first: Name,
) -> Result<Binder, Stop>
    ensures { Reads (spec.typed_from text.now turns (spec.expr text.now turns) bracket opening first signs.old) result signs.new }
{
    let mut found = Items::new(alloc);
    found.push(first)?;
    let all = read_names(alloc, text, signs, turns, found)?;
    signs.expect(Kind::Colon)?;
    let ty = Boxed::new(alloc, read_expr(alloc, text, signs, turns)?)?;
    let close = signs.expect(close_of(bracket))?;
    Ok(typed_binder(bracket, opening.place.to(close.place), all, ty))
}

/// Reads what follows the bracket of a typed binder.
#[tactic(auto, unfolding(crate::specs::Syntax::typed_after))]
#[cycle(expr)]
fn typed_after(
    alloc: Global,
    text: &str,
    signs: &mut Signs<'_>,
    turns: usize,
    bracket: Bracket,
    opening: Mark,
) -> Result<Binder, Stop>
    ensures { Reads (spec.typed_after text.now turns (spec.expr text.now turns) bracket opening signs.old) result signs.new }
{
    let first = read_name(alloc, text, signs)?;
    typed_from(alloc, text, signs, turns, bracket, opening, first)
}

#[tactic(auto, unfolding(crate::specs::Syntax::one_typed, crate::specs::Syntax::typed))]
#[cycle(expr)]
fn one_typed(
    alloc: Global,
    text: &str,
    signs: &mut Signs<'_>,
    turns: usize,
) -> Result<Option<Binder>, Stop>
    ensures { Reads (spec.one_typed text.now turns (spec.expr text.now turns) signs.old) result signs.new }
{
    if signs.sees(Kind::ParenOpen) {
        let opening = signs.expect(Kind::ParenOpen)?;
        Ok(Some(typed_after(alloc, text, signs, turns, Bracket::Round, opening)?))
    } else if signs.sees(Kind::BraceOpen) {
        let opening = signs.expect(Kind::BraceOpen)?;
        Ok(Some(typed_after(alloc, text, signs, turns, Bracket::Curly, opening)?))
    } else {
        Ok(None)
    }
}

/// Reads typed binders, `(x y : A)` or `{x y : A}`, while they come, after those found. `turns` is more than the signs that are left.
#[cycle(expr)]
pub fn read_typed(
    alloc: Global,
    text: &str,
    signs: &mut Signs<'_>,
    turns: usize,
    mut found: Items<Binder>,
) -> Result<Items<Binder>, Stop>
    ensures reads { Reads (spec.more_typed text.now turns (spec.expr text.now turns) found signs.old) result signs.new }
{
    for _turn in 0..turns {
        match one_typed(alloc, text, signs, turns)? {
            Some(binder) => found.push(binder)?,
            None => return Ok(found),
        }
    }
    Ok(found)
}

/// Reads what follows the first binder of a function type.
#[tactic(auto, unfolding(crate::specs::Syntax::pi_from))]
#[cycle(expr)]
fn pi_from(
    alloc: Global,
    text: &str,
    signs: &mut Signs<'_>,
    turns: usize,
    first: Binder,
) -> Result<Expr, Stop>
    ensures { Reads (spec.pi_from text.now turns (spec.expr text.now turns) first signs.old) result signs.new }
{
    let start = first.place();
    let mut found = Items::new(alloc);
    found.push(first)?;
    let binders = read_typed(alloc, text, signs, turns, found)?;
    signs.expect(Kind::Arrow)?;
    let body = read_expr(alloc, text, signs, turns)?;
    let place = start.to(body.place());
    Ok(Expr::Pi(place, binders, Boxed::new(alloc, body)?))
}

/// Reads what follows a parenthesis that opens no binder, with its close.
#[tactic(auto, unfolding(crate::specs::Syntax::paren_after))]
#[cycle(expr)]
fn paren_after(alloc: Global, text: &str, signs: &mut Signs<'_>, turns: usize) -> Result<Expr, Stop>
    ensures { Reads (spec.paren_after text.now turns (spec.expr text.now turns) signs.old) result signs.new }
{
    let found = read_expr(alloc, text, signs, turns)?;
    signs.expect(Kind::ParenClose)?;
    Ok(found)
}

/// Reads `f = e`.
#[tactic(auto, unfolding(crate::specs::Syntax::field))]
#[cycle(expr)]
fn field(alloc: Global, text: &str, signs: &mut Signs<'_>, turns: usize) -> Result<FieldValue, Stop>
    ensures { Reads (spec.field text.now turns (spec.expr text.now turns) signs.old) result signs.new }
{
    let name = read_name(alloc, text, signs)?;
    signs.expect(Kind::Equals)?;
    let value = read_expr(alloc, text, signs, turns)?;
    Ok(FieldValue { name, value })
}

#[tactic(auto, unfolding(crate::specs::Syntax::one_field))]
#[cycle(expr)]
fn one_field(
    alloc: Global,
    text: &str,
    signs: &mut Signs<'_>,
    turns: usize,
) -> Result<Option<FieldValue>, Stop>
    ensures { Reads (spec.one_field text.now turns (spec.expr text.now turns) signs.old) result signs.new }
{
    if signs.sees(Kind::Semicolon) {
        signs.expect(Kind::Semicolon)?;
        Ok(Some(field(alloc, text, signs, turns)?))
    } else {
        Ok(None)
    }
}

#[cycle(expr)]
fn more_fields(
    alloc: Global,
    text: &str,
    signs: &mut Signs<'_>,
    turns: usize,
    mut found: Items<FieldValue>,
) -> Result<Items<FieldValue>, Stop>
    ensures { Reads (spec.more_fields text.now turns (spec.expr text.now turns) found signs.old) result signs.new }
{
    for _turn in 0..turns {
        match one_field(alloc, text, signs, turns)? {
            Some(field) => found.push(field)?,
            None => return Ok(found),
        }
    }
    Ok(found)
}

#[tactic(auto, unfolding(crate::specs::Syntax::fields))]
#[cycle(expr)]
fn fields(
    alloc: Global,
    text: &str,
    signs: &mut Signs<'_>,
    turns: usize,
) -> Result<Items<FieldValue>, Stop>
    ensures { Reads (spec.fields text.now turns (spec.expr text.now turns) signs.old) result signs.new }
{
    let mut found = Items::new(alloc);
    if signs.sees(Kind::Name) {
        found.push(field(alloc, text, signs, turns)?)?;
        more_fields(alloc, text, signs, turns, found)
    } else {
        Ok(found)
    }
}

/// Reads `record { f = e ; g = e' }`.
#[tactic(auto, unfolding(crate::specs::Syntax::record_atom))]
#[cycle(expr)]
fn record_atom(alloc: Global, text: &str, signs: &mut Signs<'_>, turns: usize) -> Result<Expr, Stop>
    ensures { Reads (spec.record_atom text.now turns (spec.expr text.now turns) signs.old) result signs.new }
{
    let word = signs.expect(Kind::Record)?;
    signs.expect(Kind::BraceOpen)?;
    let all = fields(alloc, text, signs, turns)?;
    let close = signs.expect(Kind::BraceClose)?;
    Ok(Expr::Record(word.place.to(close.place), all))
}

/// Reads an atom without parentheses around it.
#[tactic(auto, unfolding(crate::specs::Syntax::simple_atom))]
#[cycle(expr)]
fn simple_atom(alloc: Global, text: &str, signs: &mut Signs<'_>, turns: usize) -> Result<Expr, Stop>
    ensures { Reads (spec.simple_atom text.now turns (spec.expr text.now turns) signs.old) result signs.new }
{
    if signs.sees(Kind::Name) {
        let mark = signs.expect(Kind::Name)?;
        Ok(Expr::Name(name_of(alloc, text, mark)?))
    } else if signs.sees(Kind::Qualified) {
        let mark = signs.expect(Kind::Qualified)?;
        Ok(Expr::Qualified(name_of(alloc, text, mark)?))
    } else if signs.sees(Kind::SetLevel) {
        let mark = signs.expect(Kind::SetLevel)?;
        Ok(Expr::SetLevel(mark.place, mark.level))
    } else if signs.sees(Kind::Hole) {
        Ok(Expr::Hole(signs.expect(Kind::Hole)?.place))
    } else if signs.sees(Kind::Underscore) {
        Ok(Expr::Underscore(signs.expect(Kind::Underscore)?.place))
    } else {
        record_atom(alloc, text, signs, turns)
    }
}

/// Reads what follows the brace of an argument.
#[tactic(auto, unfolding(crate::specs::Syntax::braced_arg, crate::specs::Syntax::named_arg, crate::specs::Syntax::implicit_arg))]
#[cycle(expr)]
fn braced_arg(
    alloc: Global,
    text: &str,
    signs: &mut Signs<'_>,
    turns: usize,
    opening: Mark,
) -> Result<Arg, Stop>
    ensures { Reads (spec.braced_arg text.now turns (spec.expr text.now turns) opening signs.old) result signs.new }
{
    if signs.equals_follows() {
        let name = read_name(alloc, text, signs)?;
        signs.expect(Kind::Equals)?;
        let value = read_expr(alloc, text, signs, turns)?;
        let close = signs.expect(Kind::BraceClose)?;
        Ok(Arg::Named(opening.place.to(close.place), name, value))
    } else {
        let value = read_expr(alloc, text, signs, turns)?;
        let close = signs.expect(Kind::BraceClose)?;
        Ok(Arg::Implicit(opening.place.to(close.place), value))
    }
}

/// Reads what follows the dot of an argument.
#[tactic(auto, unfolding(crate::specs::Syntax::project_arg))]
fn project_arg(
    alloc: Global,
    text: &str,
    signs: &mut Signs<'_>,
    turns: usize,
    dot: Mark,
) -> Result<Arg, Stop>
    ensures { Reads (spec.project_arg text.now turns (spec.expr text.now turns) dot signs.old) result signs.new }
{
    if signs.sees(Kind::Name) {
        let mark = signs.expect(Kind::Name)?;
        Ok(Arg::Project(dot.place.to(mark.place), name_of(alloc, text, mark)?))
    } else {
        let mark = signs.expect(Kind::Qualified)?;
        Ok(Arg::ProjectQualified(dot.place.to(mark.place), name_of(alloc, text, mark)?))
    }
}

#[tactic(auto, unfolding(crate::specs::Syntax::one_arg, crate::specs::Syntax::arg))]
#[cycle(expr)]
fn one_arg(
    alloc: Global,
    text: &str,
    signs: &mut Signs<'_>,
    turns: usize,
) -> Result<Option<Arg>, Stop>
    ensures { Reads (spec.one_arg text.now turns (spec.expr text.now turns) signs.old) result signs.new }
{
    if signs.sees(Kind::BraceOpen) {
        let opening = signs.expect(Kind::BraceOpen)?;
        Ok(Some(braced_arg(alloc, text, signs, turns, opening)?))
    } else if signs.sees(Kind::Dot) {
        let dot = signs.expect(Kind::Dot)?;
        Ok(Some(project_arg(alloc, text, signs, turns, dot)?))
    } else if signs.sees(Kind::ParenOpen) {
        signs.expect(Kind::ParenOpen)?;
        Ok(Some(Arg::Plain(paren_after(alloc, text, signs, turns)?)))
    } else if signs.begins_atom() {
        Ok(Some(Arg::Plain(simple_atom(alloc, text, signs, turns)?)))
    } else {
        Ok(None)
    }
}

#[cycle(expr)]
fn args(alloc: Global, text: &str, signs: &mut Signs<'_>, turns: usize) -> Result<Items<Arg>, Stop>
    ensures { Reads (spec.args text.now turns (spec.expr text.now turns) [] signs.old) result signs.new }
{
    let mut found = Items::new(alloc);
    for _turn in 0..turns {
        match one_arg(alloc, text, signs, turns)? {
            Some(arg) => found.push(arg)?,
            None => return Ok(found),
        }
    }
    Ok(found)
}

/// Reads an arrow and what follows it, where one comes after the expression.
#[tactic(auto, unfolding(crate::specs::Syntax::arrow_tail))]
#[cycle(expr)]
fn arrow_tail(
    alloc: Global,
    text: &str,
    signs: &mut Signs<'_>,
    turns: usize,
    left: Expr,
) -> Result<Expr, Stop>
    ensures { Reads (spec.arrow_tail text.now turns (spec.expr text.now turns) left signs.old) result signs.new }
{
    if signs.sees(Kind::Arrow) {
        signs.expect(Kind::Arrow)?;
        let right = read_expr(alloc, text, signs, turns)?;
        let place = left.place().to(right.place());
        Ok(Expr::Arrow(place, Boxed::new(alloc, left)?, Boxed::new(alloc, right)?))
    } else {
        Ok(left)
    }
}

/// Reads what follows the head of an application.
#[tactic(auto, unfolding(crate::specs::Syntax::app_from))]
#[cycle(expr)]
fn app_from(
    alloc: Global,
    text: &str,
    signs: &mut Signs<'_>,
    turns: usize,
    head: Expr,
) -> Result<Expr, Stop>
    ensures { Reads (spec.app_from text.now turns (spec.expr text.now turns) head signs.old) result signs.new }
{
    let args = args(alloc, text, signs, turns)?;
    let left = applied(alloc, head, args)?;
    arrow_tail(alloc, text, signs, turns, left)
}

/// Reads an expression that begins with a parenthesis, behind it.
#[tactic(auto, unfolding(crate::specs::Syntax::after_paren))]
#[cycle(expr)]
fn after_paren(
    alloc: Global,
    text: &str,
    signs: &mut Signs<'_>,
    turns: usize,
    opening: Mark,
) -> Result<Expr, Stop>
    ensures { Reads (spec.after_paren text.now turns (spec.expr text.now turns) opening signs.old) result signs.new }
{
    if signs.colon_follows() {
        let first = typed_after(alloc, text, signs, turns, Bracket::Round, opening)?;
        pi_from(alloc, text, signs, turns, first)
    } else {
        let head = paren_after(alloc, text, signs, turns)?;
        app_from(alloc, text, signs, turns, head)
    }
}

/// Reads what follows the brace and the first name of a binder of `∀` or `λ`.
#[tactic(auto, unfolding(crate::specs::Syntax::braced_from))]
#[cycle(expr)]
fn braced_from(
    alloc: Global,
    text: &str,
    signs: &mut Signs<'_>,
    turns: usize,
    opening: Mark,
    first: Name,
) -> Result<Binder, Stop>
    ensures { Reads (spec.braced_from text.now turns (spec.expr text.now turns) opening first signs.old) result signs.new }
{
    if signs.sees(Kind::BraceClose) {
        let close = signs.expect(Kind::BraceClose)?;
        Ok(Binder::Braced(opening.place.to(close.place), first))
    } else {
        typed_from(alloc, text, signs, turns, Bracket::Curly, opening, first)
    }
}

/// Reads a binder of `∀`.
#[tactic(auto, unfolding(crate::specs::Syntax::bound))]
#[cycle(expr)]
fn bound(alloc: Global, text: &str, signs: &mut Signs<'_>, turns: usize) -> Result<Binder, Stop>
    ensures { Reads (spec.bound text.now turns (spec.expr text.now turns) signs.old) result signs.new }
{
    if signs.sees(Kind::BraceOpen) {
        let opening = signs.expect(Kind::BraceOpen)?;
        let first = read_name(alloc, text, signs)?;
        braced_from(alloc, text, signs, turns, opening, first)
    } else if signs.sees(Kind::ParenOpen) {
        let opening = signs.expect(Kind::ParenOpen)?;
        typed_after(alloc, text, signs, turns, Bracket::Round, opening)
    } else {
        Ok(Binder::Name(read_name(alloc, text, signs)?))
    }
}

/// Reads a binder of `∀` or `λ`.
#[tactic(auto, unfolding(crate::specs::Syntax::binder, crate::specs::Syntax::lambda_bound))]
#[cycle(expr)]
fn binder(
    alloc: Global,
    text: &str,
    signs: &mut Signs<'_>,
    turns: usize,
    quantifier: Quantifier,
) -> Result<Binder, Stop>
    ensures { Reads (spec.binder text.now turns (spec.expr text.now turns) quantifier signs.old) result signs.new }
{
    match quantifier {
        Quantifier::All => bound(alloc, text, signs, turns),
        Quantifier::Lambda => {
            if signs.sees(Kind::Underscore) {
                Ok(Binder::Underscore(signs.expect(Kind::Underscore)?.place))
            } else {
                bound(alloc, text, signs, turns)
            }
        }
    }
}

/// Whether a binder of `∀` or `λ` comes next.
fn begins_binder(signs: &Signs<'_>, quantifier: Quantifier) -> bool
    ensures { result ≡ laws.next_is (spec.begins_binder quantifier) signs.now }
{
    match quantifier {
        Quantifier::All => {
            signs.sees(Kind::BraceOpen) || signs.sees(Kind::ParenOpen) || signs.sees(Kind::Name)
        }
        Quantifier::Lambda => {
            signs.sees(Kind::Underscore)
                || signs.sees(Kind::BraceOpen)
                || signs.sees(Kind::ParenOpen)
                || signs.sees(Kind::Name)
        }
    }
}

#[tactic(auto, unfolding(crate::specs::Syntax::one_binder))]
#[cycle(expr)]
fn one_binder(
    alloc: Global,
    text: &str,
    signs: &mut Signs<'_>,
    turns: usize,
    quantifier: Quantifier,
) -> Result<Option<Binder>, Stop>
    ensures { Reads (spec.one_binder text.now turns (spec.expr text.now turns) quantifier signs.old) result signs.new }
{
    if begins_binder(signs, quantifier) {
        Ok(Some(binder(alloc, text, signs, turns, quantifier)?))
    } else {
        Ok(None)
    }
}

#[cycle(expr)]
fn binders(
    alloc: Global,
    text: &str,
    signs: &mut Signs<'_>,
    turns: usize,
    quantifier: Quantifier,
    mut found: Items<Binder>,
) -> Result<Items<Binder>, Stop>
    ensures { Reads (spec.binders text.now turns (spec.expr text.now turns) quantifier found signs.old) result signs.new }
{
    for _turn in 0..turns {
        match one_binder(alloc, text, signs, turns, quantifier)? {
            Some(binder) => found.push(binder)?,
            None => return Ok(found),
        }
    }
    Ok(found)
}

fn kind_of(quantifier: Quantifier) -> Kind
    ensures { result ≡ spec.quantifier_kind quantifier }
{
    match quantifier {
        Quantifier::All => Kind::All,
        Quantifier::Lambda => Kind::Lambda,
    }
}

/// The tree of `∀` or `λ`, at the mark, with its binders and what follows the arrow.
fn quantified_tree(
    alloc: Global,
    quantifier: Quantifier,
    mark: Mark,
    binders: Items<Binder>,
    body: Expr,
) -> Result<Expr, AllocError>
    ensures { IfOk result (λ x. x ≡ spec.quantified_tree quantifier mark binders body) }
{
    let place = mark.place.to(body.place());
    let body = Boxed::new(alloc, body)?;
    match quantifier {
        Quantifier::All => Ok(Expr::Forall(place, binders, body)),
        Quantifier::Lambda => Ok(Expr::Lambda(place, binders, body)),
    }
}

/// Reads an expression that begins with `∀` or `λ`.
#[tactic(auto, unfolding(crate::specs::Syntax::quantified))]
#[cycle(expr)]
fn quantified(
    alloc: Global,
    text: &str,
    signs: &mut Signs<'_>,
    turns: usize,
    quantifier: Quantifier,
) -> Result<Expr, Stop>
    ensures { Reads (spec.quantified text.now turns (spec.expr text.now turns) quantifier signs.old) result signs.new }
{
    let mark = signs.expect(kind_of(quantifier))?;
    let mut found = Items::new(alloc);
    found.push(binder(alloc, text, signs, turns, quantifier)?)?;
    let all = binders(alloc, text, signs, turns, quantifier, found)?;
    signs.expect(Kind::Arrow)?;
    let body = read_expr(alloc, text, signs, turns)?;
    Ok(quantified_tree(alloc, quantifier, mark, all, body)?)
}

#[tactic(auto, unfolding(crate::specs::Syntax::level))]
#[cycle(expr)]
fn level(alloc: Global, text: &str, signs: &mut Signs<'_>, turns: usize) -> Result<Expr, Stop>
    ensures { Reads (spec.level text.now turns (spec.expr text.now turns) signs.old) result signs.new }
{
    if signs.sees(Kind::ParenOpen) {
        let opening = signs.expect(Kind::ParenOpen)?;
        after_paren(alloc, text, signs, turns, opening)
    } else if signs.sees(Kind::BraceOpen) {
        let opening = signs.expect(Kind::BraceOpen)?;
        let first = typed_after(alloc, text, signs, turns, Bracket::Curly, opening)?;
        pi_from(alloc, text, signs, turns, first)
    } else if signs.sees(Kind::All) {
        quantified(alloc, text, signs, turns, Quantifier::All)
    } else if signs.sees(Kind::Lambda) {
        quantified(alloc, text, signs, turns, Quantifier::Lambda)
    } else {
        let head = simple_atom(alloc, text, signs, turns)?;
        app_from(alloc, text, signs, turns, head)
    }
}

/// Reads an expression. `turns` is more than the signs that are left.
#[cycle(expr)]
pub fn read_expr(
    alloc: Global,
    text: &str,
    signs: &mut Signs<'_>,
    turns: usize,
) -> Result<Expr, Stop>
    ensures reads { Reads (spec.expr text.now turns signs.old) result signs.new }
{
    if turns == 0 {
        return Err(Stop::Unexpected(signs.left()));
    }
    level(alloc, text, signs, turns - 1)
}
