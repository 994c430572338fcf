ghost use Rattle.std.specs.Prelude.{◌≡◌, ◌-◌};
ghost use Rattle.agda_parser.specs.DeclarationSyntax as spec;
ghost use Rattle.agda_grammar.specs.Declarations as trees;
ghost use Rattle.expr_parser.specs.Cursor.{Reads};
ghost use Rattle.expr_parser.specs.Cursor as signs_spec;
ghost use Rattle.parse_laws.specs.Parser as laws;
ghost use Rattle.agda_grammar.specs.declared.sign.Kind.TheVariants as k;

use crate::grown::Grown;
use crate::lines::{Line, read_lines};
use agda_grammar::{Kind, Mark};
use el_outside::Span;
use expr_parser::{Signs, Stop, name_of, read_elims, read_expr, read_name, read_names};
use source_tree::{Clause, Expr, Pattern, Place, Signature};
use sqlite_items::Items;
use std::alloc::Global;

/// The place of the last signature, or `place` where there is none.
pub fn last_signature(place: Place, signatures: &[Signature]) -> Place
    ensures { result ≡ trees.last_signature place signatures.now }
{
    let mut last = place;
    for signature in signatures {
        last = signature.place;
    }
    last
}

/// Reads `x y : A`.
#[tactic(auto, unfolding(crate::specs::DeclarationSyntax::declaring))]
pub fn declaring(
    alloc: Global,
    text: &str,
    signs: &mut Signs<'_>,
    turns: usize,
) -> Result<Signature, Stop>
    ensures { Reads (spec.declaring text.now turns signs.old) result signs.new }
{
    let first = read_name(alloc, text, signs)?;
    let start = first.place;
    let mut found = Items::new(alloc);
    found.push(first)?;
    let all = read_names(alloc, text, signs, turns, found)?;
    signs.expect(Kind::Colon)?;
    let ty = read_expr(alloc, text, signs, turns)?;
    let place = start.to(ty.place());
    Ok(Signature {
        place,
        names: all,
        ty,
    })
}

#[tactic(auto, unfolding(crate::specs::DeclarationSyntax::one_declaring))]
fn one_declaring(
    alloc: Global,
    text: &str,
    signs: &mut Signs<'_>,
    turns: usize,
) -> Result<Option<Signature>, Stop>
    ensures { Reads (spec.one_declaring text.now turns signs.old) result signs.new }
{
    if signs.sees(Kind::BlockNext) {
        signs.expect(Kind::BlockNext)?;
        Ok(Some(declaring(alloc, text, signs, turns)?))
    } else {
        Ok(None)
    }
}

impl Line for Signature {
    ghost use Rattle.agda_parser.specs.DeclarationSyntax.{one_declaring};

    ghost next = { one_declaring };

    fn read_next(
        alloc: Global,
        text: &str,
        signs: &mut Signs<'_>,
        turns: usize,
    ) -> Result<Option<Signature>, Stop> {
        one_declaring(alloc, text, signs, turns)
    }
}

#[tactic(auto, unfolding(crate::specs::DeclarationSyntax::more_declaring))]
fn more_declaring(
    alloc: Global,
    text: &str,
    signs: &mut Signs<'_>,
    turns: usize,
    found: Grown<Signature>,
) -> Result<Items<Signature>, Stop>
    ensures { Reads (spec.more_declaring text.now turns found signs.old) result signs.new }
{
    Ok(read_lines(alloc, text, signs, turns, found)?.into_items())
}

#[tactic(auto, unfolding(crate::specs::DeclarationSyntax::inner_declarings))]
fn inner_declarings(
    alloc: Global,
    text: &str,
    signs: &mut Signs<'_>,
    turns: usize,
) -> Result<Items<Signature>, Stop>
    ensures { Reads (spec.inner_declarings text.now turns signs.old) result signs.new }
{
    if signs.sees(Kind::BlockClose) {
        Ok(Items::new(alloc))
    } else {
        let mut found = Grown::new(alloc);
        found.push(declaring(alloc, text, signs, turns)?)?;
        more_declaring(alloc, text, signs, turns, found)
    }
}

/// Reads a block of signatures.
#[tactic(auto, unfolding(crate::specs::DeclarationSyntax::declarings))]
pub fn declarings(
    alloc: Global,
    text: &str,
    signs: &mut Signs<'_>,
    turns: usize,
) -> Result<Items<Signature>, Stop>
    ensures { Reads (spec.declarings text.now turns signs.old) result signs.new }
{
    signs.expect(Kind::BlockOpen)?;
    let found = inner_declarings(alloc, text, signs, turns)?;
    signs.expect(Kind::BlockClose)?;
    Ok(found)
}

#[tactic(auto, unfolding(crate::specs::DeclarationSyntax::right_side))]
fn right_side(
    alloc: Global,
    text: &str,
    signs: &mut Signs<'_>,
    turns: usize,
) -> Result<Option<Expr>, Stop>
    ensures { Reads (spec.right_side text.now turns signs.old) result signs.new }
{
    if signs.sees(Kind::Equals) {
        signs.expect(Kind::Equals)?;
        Ok(Some(read_expr(alloc, text, signs, turns)?))
    } else {
        Ok(None)
    }
}

/// Reads what follows the name of a clause.
#[tactic(auto, unfolding(crate::specs::DeclarationSyntax::sides))]
fn sides(
    alloc: Global,
    text: &str,
    signs: &mut Signs<'_>,
    turns: usize,
) -> Result<(Items<Pattern>, Option<Expr>), Stop>
    ensures { Reads (spec.sides text.now turns signs.old) result signs.new }
{
    let patterns = read_elims(alloc, text, signs, turns)?;
    let right = right_side(alloc, text, signs, turns)?;
    Ok((patterns, right))
}

/// From the name to the end of the last token.
fn clause_place(mark: Mark, end: u32) -> Place
    ensures { result ≡ trees.clause_place mark end }
{
    Place {
        span: Span {
            start: mark.place.span.start,
            end,
        },
        pos: mark.place.pos,
    }
}

/// Reads `f p q = e`.
#[tactic(auto, unfolding(crate::specs::DeclarationSyntax::equation, parse_laws::specs::Parser::with_taken))]
pub fn equation(
    alloc: Global,
    text: &str,
    signs: &mut Signs<'_>,
    turns: usize,
) -> Result<Clause, Stop>
    ensures { Reads (spec.equation text.now turns signs.old) result signs.new }
{
    let mark = signs.expect(Kind::Name)?;
    let before = signs.copy();
    let (patterns, right) = sides(alloc, text, signs, turns)?;
    let end = signs.end_since(&before, mark.place.span.end);
    Ok(Clause {
        place: clause_place(mark, end),
        name: name_of(alloc, text, mark)?,
        patterns,
        right,
    })
}
