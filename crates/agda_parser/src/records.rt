ghost use Rattle.std.specs.Prelude.{◌≡◌};
ghost use Rattle.agda_parser.specs.DeclarationSyntax as spec;
ghost use Rattle.agda_grammar.specs.Declarations as trees;
ghost use Rattle.expr_parser.specs.Cursor.{Reads, is};
ghost use Rattle.expr_parser.specs.Cursor as signs_spec;
ghost use Rattle.parse_laws.specs.Parser as laws;
ghost use Rattle.agda_grammar.specs.declared.sign.Kind.TheVariants as k;

use crate::decls::{declarings, last_signature};
use crate::grown::Grown;
use crate::lines::{Line, read_lines};
use agda_grammar::Kind;
use expr_parser::{Signs, Stop, name_of};
use source_tree::{Place, RecordItem};
use sqlite_items::Items;
use std::alloc::Global;

fn item_place(item: &RecordItem) -> Place
    ensures { result ≡ trees.item_place item.now }
{
    match item {
        RecordItem::Inductive(place)
        | RecordItem::Coinductive(place)
        | RecordItem::Constructor(place, _)
        | RecordItem::Field(place, _) => *place,
    }
}

/// The place of the last item, or `place` where there is none.
pub fn last_item(place: Place, items: &[RecordItem]) -> Place
    ensures { result ≡ trees.last_item place items.now }
{
    let mut last = place;
    for item in items {
        last = item_place(item);
    }
    last
}

/// Whether `inductive` or `coinductive` comes next.
fn sees_induction(signs: &Signs<'_>) -> bool
    ensures { result ≡ laws.next_is spec.is_induction signs.now }
{
    signs.sees(Kind::Inductive) || signs.sees(Kind::Coinductive)
}

/// Reads `inductive` or `coinductive`.
#[tactic(auto, unfolding(crate::specs::DeclarationSyntax::induction))]
fn induction(text: &str, signs: &mut Signs<'_>, turns: usize) -> Result<RecordItem, Stop>
    ensures { Reads (spec.induction text.now turns signs.old) result signs.new }
{
    if signs.sees(Kind::Inductive) {
        Ok(RecordItem::Inductive(signs.expect(Kind::Inductive)?.place))
    } else {
        Ok(RecordItem::Coinductive(signs.expect(Kind::Coinductive)?.place))
    }
}

/// Reads `constructor c`.
#[tactic(auto, unfolding(crate::specs::DeclarationSyntax::constructor_item))]
fn constructor_item(
    alloc: Global,
    text: &str,
    signs: &mut Signs<'_>,
    turns: usize,
) -> Result<RecordItem, Stop>
    ensures { Reads (spec.constructor_item text.now turns signs.old) result signs.new }
{
    let word = signs.expect(Kind::Constructor)?;
    let mark = signs.expect(Kind::Name)?;
    Ok(RecordItem::Constructor(word.place.to(mark.place), name_of(alloc, text, mark)?))
}

/// Reads `field` and its block.
#[tactic(auto, unfolding(crate::specs::DeclarationSyntax::field_item))]
fn field_item(
    alloc: Global,
    text: &str,
    signs: &mut Signs<'_>,
    turns: usize,
) -> Result<RecordItem, Stop>
    ensures { Reads (spec.field_item text.now turns signs.old) result signs.new }
{
    let word = signs.expect(Kind::Field)?;
    let found = declarings(alloc, text, signs, turns)?;
    let place = word.place.to(last_signature(word.place, found.as_slice()));
    Ok(RecordItem::Field(place, found))
}

#[tactic(auto, unfolding(crate::specs::DeclarationSyntax::one_field_item))]
fn one_field_item(
    alloc: Global,
    text: &str,
    signs: &mut Signs<'_>,
    turns: usize,
) -> Result<Option<RecordItem>, Stop>
    ensures { Reads (spec.one_field_item text.now turns signs.old) result signs.new }
{
    if signs.sees(Kind::BlockNext) {
        signs.expect(Kind::BlockNext)?;
        Ok(Some(field_item(alloc, text, signs, turns)?))
    } else {
        Ok(None)
    }
}

impl Line for RecordItem {
    ghost use Rattle.agda_parser.specs.DeclarationSyntax.{one_field_item};

    ghost next = { one_field_item };

    fn read_next(
        alloc: Global,
        text: &str,
        signs: &mut Signs<'_>,
        turns: usize,
    ) -> Result<Option<RecordItem>, Stop> {
        one_field_item(alloc, text, signs, turns)
    }
}

#[tactic(auto, unfolding(crate::specs::DeclarationSyntax::more_field_items))]
fn more_field_items(
    alloc: Global,
    text: &str,
    signs: &mut Signs<'_>,
    turns: usize,
    found: Grown<RecordItem>,
) -> Result<Items<RecordItem>, Stop>
    ensures { Reads (spec.more_field_items text.now turns found signs.old) result signs.new }
{
    Ok(read_lines(alloc, text, signs, turns, found)?.into_items())
}

fn constructor_or_field(
    alloc: Global,
    text: &str,
    signs: &mut Signs<'_>,
    turns: usize,
) -> Result<RecordItem, Stop>
    ensures { Reads (laws.choose (is k.Constructor) (spec.constructor_item text.now turns) (spec.field_item text.now turns) signs.old) result signs.new }
{
    if signs.sees(Kind::Constructor) {
        constructor_item(alloc, text, signs, turns)
    } else {
        field_item(alloc, text, signs, turns)
    }
}

fn induction_or_field(
    alloc: Global,
    text: &str,
    signs: &mut Signs<'_>,
    turns: usize,
) -> Result<RecordItem, Stop>
    ensures { Reads (laws.choose spec.is_induction (spec.induction text.now turns) (spec.field_item text.now turns) signs.old) result signs.new }
{
    if sees_induction(signs) {
        induction(text, signs, turns)
    } else {
        field_item(alloc, text, signs, turns)
    }
}

/// Reads what follows `inductive` or `coinductive` where it is the first item.
#[tactic(auto, unfolding(crate::specs::DeclarationSyntax::second_item))]
fn after_induction(
    alloc: Global,
    text: &str,
    signs: &mut Signs<'_>,
    turns: usize,
    first: RecordItem,
) -> Result<Items<RecordItem>, Stop>
    ensures { Reads (spec.second_item text.now turns (is k.Constructor) (spec.constructor_item text.now turns) first signs.old) result signs.new }
{
    let mut found = Grown::new(alloc);
    found.push(first)?;
    if signs.sees(Kind::BlockNext) {
        signs.expect(Kind::BlockNext)?;
        found.push(constructor_or_field(alloc, text, signs, turns)?)?;
        more_field_items(alloc, text, signs, turns, found)
    } else {
        Ok(found.into_items())
    }
}

/// Reads what follows `constructor c` where it is the first item.
#[tactic(auto, unfolding(crate::specs::DeclarationSyntax::second_item))]
fn after_constructor(
    alloc: Global,
    text: &str,
    signs: &mut Signs<'_>,
    turns: usize,
    first: RecordItem,
) -> Result<Items<RecordItem>, Stop>
    ensures { Reads (spec.second_item text.now turns spec.is_induction (spec.induction text.now turns) first signs.old) result signs.new }
{
    let mut found = Grown::new(alloc);
    found.push(first)?;
    if signs.sees(Kind::BlockNext) {
        signs.expect(Kind::BlockNext)?;
        found.push(induction_or_field(alloc, text, signs, turns)?)?;
        more_field_items(alloc, text, signs, turns, found)
    } else {
        Ok(found.into_items())
    }
}

/// Reads the items of a record.
#[tactic(auto, unfolding(crate::specs::DeclarationSyntax::record_items))]
pub fn record_items(
    alloc: Global,
    text: &str,
    signs: &mut Signs<'_>,
    turns: usize,
) -> Result<Items<RecordItem>, Stop>
    ensures { Reads (spec.record_items text.now turns signs.old) result signs.new }
{
    if sees_induction(signs) {
        let first = induction(text, signs, turns)?;
        after_induction(alloc, text, signs, turns, first)
    } else if signs.sees(Kind::Constructor) {
        let first = constructor_item(alloc, text, signs, turns)?;
        after_constructor(alloc, text, signs, turns, first)
    } else if signs.sees(Kind::BlockClose) {
        Ok(Items::new(alloc))
    } else {
        let mut found = Grown::new(alloc);
        found.push(field_item(alloc, text, signs, turns)?)?;
        more_field_items(alloc, text, signs, turns, found)
    }
}
