ghost use Rattle.std.specs.Prelude.{◌≡◌, ◌+◌, ◌≤◌, ◌^◌, length};
ghost use Rattle.agda_parser.specs.DeclarationSyntax as spec;
ghost use Rattle.agda_grammar.specs.Declarations as trees;
ghost use Rattle.expr_parser.specs.Cursor.{Reads};
ghost use Rattle.expr_parser.specs.Cursor as signs_spec;
ghost use Rattle.parse_laws.specs.Parser as laws;
ghost use Rattle.agda_grammar.specs.declared.sign.Kind.TheVariants as k;

use crate::decls::{declaring, declarings, equation, last_signature};
use crate::group::grouped;
use crate::grown::Grown;
use crate::lines::{Line, read_lines};
use crate::records::{last_item, record_items};
use agda_grammar::{Entry, Kind, Mark};
use el_outside::{Pos, Span};
use expr_parser::{Signs, Stop, name_of, read_expr, read_name, read_typed};
use source_tree::{Decl, File, Place};
use sqlite_items::Items;
use std::alloc::Global;

/// From the word to the end of the last part, at the name.
fn named_place(word: Mark, name: Place, last: Place) -> Place
    ensures { result ≡ trees.named_place word name last }
{
    Place {
        span: word.place.to(last).span,
        pos: name.pos,
    }
}

#[tactic(auto, unfolding(crate::specs::DeclarationSyntax::postulate_item))]
fn postulate_item(
    alloc: Global,
    text: &str,
    signs: &mut Signs<'_>,
    turns: usize,
) -> Result<Entry, Stop>
    ensures { Reads (spec.postulate_item text.now turns signs.old) result signs.new }
{
    let word = signs.expect(Kind::Postulate)?;
    let found = declarings(alloc, text, signs, turns)?;
    let place = word.place.to(last_signature(word.place, found.as_slice()));
    Ok(Entry::Other(Decl::Postulate(place, found)))
}

#[tactic(auto, unfolding(crate::specs::DeclarationSyntax::open_item, crate::specs::DeclarationSyntax::publicity))]
fn open_item(alloc: Global, text: &str, signs: &mut Signs<'_>, turns: usize) -> Result<Entry, Stop>
    ensures { Reads (spec.open_item text.now turns signs.old) result signs.new }
{
    let word = signs.expect(Kind::Open)?;
    let mark = signs.expect(Kind::Name)?;
    if signs.sees(Kind::Public) {
        let last = signs.expect(Kind::Public)?;
        let place = named_place(word, mark.place, last.place);
        Ok(Entry::Other(Decl::Open(place, name_of(alloc, text, mark)?, true)))
    } else {
        let place = named_place(word, mark.place, mark.place);
        Ok(Entry::Other(Decl::Open(place, name_of(alloc, text, mark)?, false)))
    }
}

#[tactic(auto, unfolding(crate::specs::DeclarationSyntax::data_item))]
fn data_item(alloc: Global, text: &str, signs: &mut Signs<'_>, turns: usize) -> Result<Entry, Stop>
    ensures { Reads (spec.data_item text.now turns signs.old) result signs.new }
{
    let word = signs.expect(Kind::Data)?;
    let name = read_name(alloc, text, signs)?;
    let binders = read_typed(alloc, text, signs, turns, Items::new(alloc))?;
    signs.expect(Kind::Colon)?;
    let ty = read_expr(alloc, text, signs, turns)?;
    let end = signs.expect(Kind::Where)?;
    let found = declarings(alloc, text, signs, turns)?;
    let place = named_place(
        word,
        name.place,
        last_signature(end.place, found.as_slice()),
    );
    Ok(Entry::Other(Decl::Data(place, name, binders, ty, found)))
}

#[tactic(auto, unfolding(crate::specs::DeclarationSyntax::record_item))]
fn record_item(
    alloc: Global,
    text: &str,
    signs: &mut Signs<'_>,
    turns: usize,
) -> Result<Entry, Stop>
    ensures { Reads (spec.record_item text.now turns signs.old) result signs.new }
{
    let word = signs.expect(Kind::Record)?;
    let name = read_name(alloc, text, signs)?;
    let binders = read_typed(alloc, text, signs, turns, Items::new(alloc))?;
    signs.expect(Kind::Colon)?;
    let ty = read_expr(alloc, text, signs, turns)?;
    let end = signs.expect(Kind::Where)?;
    signs.expect(Kind::BlockOpen)?;
    let found = record_items(alloc, text, signs, turns)?;
    signs.expect(Kind::BlockClose)?;
    let place = named_place(word, name.place, last_item(end.place, found.as_slice()));
    Ok(Entry::Other(Decl::Record(place, name, binders, ty, found)))
}

/// Reads an item of a file.
#[tactic(auto, unfolding(crate::specs::DeclarationSyntax::item, crate::specs::DeclarationSyntax::named_item))]
fn item(alloc: Global, text: &str, signs: &mut Signs<'_>, turns: usize) -> Result<Entry, Stop>
    ensures { Reads (spec.item text.now turns signs.old) result signs.new }
{
    if signs.sees(Kind::Postulate) {
        postulate_item(alloc, text, signs, turns)
    } else if signs.sees(Kind::Open) {
        open_item(alloc, text, signs, turns)
    } else if signs.sees(Kind::Data) {
        data_item(alloc, text, signs, turns)
    } else if signs.sees(Kind::Record) {
        record_item(alloc, text, signs, turns)
    } else if signs.colon_follows() {
        Ok(Entry::Signature(declaring(alloc, text, signs, turns)?))
    } else {
        Ok(Entry::Clause(equation(alloc, text, signs, turns)?))
    }
}

#[tactic(auto, unfolding(crate::specs::DeclarationSyntax::one_item))]
fn one_item(
    alloc: Global,
    text: &str,
    signs: &mut Signs<'_>,
    turns: usize,
) -> Result<Option<Entry>, Stop>
    ensures { Reads (spec.one_item text.now turns signs.old) result signs.new }
{
    if signs.sees(Kind::BlockNext) {
        signs.expect(Kind::BlockNext)?;
        Ok(Some(item(alloc, text, signs, turns)?))
    } else {
        Ok(None)
    }
}

impl Line for Entry {
    ghost use Rattle.agda_parser.specs.DeclarationSyntax.{one_item};

    ghost next = { one_item };

    fn read_next(
        alloc: Global,
        text: &str,
        signs: &mut Signs<'_>,
        turns: usize,
    ) -> Result<Option<Entry>, Stop> {
        one_item(alloc, text, signs, turns)
    }
}

#[tactic(auto, unfolding(crate::specs::DeclarationSyntax::more_items))]
fn more_items(
    alloc: Global,
    text: &str,
    signs: &mut Signs<'_>,
    turns: usize,
    found: Grown<Entry>,
) -> Result<Grown<Entry>, Stop>
    ensures { Reads (spec.more_items text.now turns found signs.old) result signs.new }
{
    read_lines(alloc, text, signs, turns, found)
}

#[tactic(auto, unfolding(crate::specs::DeclarationSyntax::inner_items))]
fn inner_items(
    alloc: Global,
    text: &str,
    signs: &mut Signs<'_>,
    turns: usize,
) -> Result<Grown<Entry>, Stop>
    ensures { Reads (spec.inner_items text.now turns signs.old) result signs.new }
{
    let mut found = Grown::new(alloc);
    if signs.sees(Kind::BlockClose) {
        Ok(found)
    } else {
        found.push(item(alloc, text, signs, turns)?)?;
        more_items(alloc, text, signs, turns, found)
    }
}

#[tactic(auto, unfolding(crate::specs::DeclarationSyntax::header, crate::specs::DeclarationSyntax::module_name))]
fn header(text: &str, signs: &mut Signs<'_>, turns: usize) -> Result<(), Stop>
    ensures { Reads (spec.header text.now turns signs.old) result signs.new }
{
    if signs.sees(Kind::Module) {
        signs.expect(Kind::Module)?;
        if signs.sees(Kind::Name) {
            signs.expect(Kind::Name)?;
        } else {
            signs.expect(Kind::Qualified)?;
        }
        signs.expect(Kind::Where)?;
    }
    Ok(())
}

/// The place of the whole text.
fn text_place(text: &str) -> Place
    requires text_short { length text.now + 2 ≤ 2 ^ 32 }
    ensures { result ≡ trees.text_place text.now }
{
    Place {
        span: Span {
            start: 0,
            end: text.len() as u32,
        },
        pos: Pos { line: 1, col: 1 },
    }
}

/// Reads the signs of a file.
#[tactic(auto, unfolding(crate::specs::DeclarationSyntax::file))]
pub fn file(alloc: Global, text: &str, signs: &mut Signs<'_>, turns: usize) -> Result<File, Stop>
    requires text_short { length text.now + 2 ≤ 2 ^ 32 }
    ensures { Reads (spec.file text.now turns signs.old) result signs.new }
{
    header(text, signs, turns)?;
    signs.expect(Kind::BlockOpen)?;
    let found = inner_items(alloc, text, signs, turns)?;
    signs.expect(Kind::BlockClose)?;
    Ok(File {
        place: text_place(text),
        decls: grouped(alloc, found)?,
    })
}
