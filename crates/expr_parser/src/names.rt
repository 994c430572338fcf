ghost use Rattle.expr_parser.specs.Syntax as spec;
ghost use Rattle.expr_parser.specs.Cursor.{Reads};
ghost use Rattle.expr_parser.specs.Cursor as signs_spec;
ghost use Rattle.parse_laws.specs.Parser as laws;
ghost use Rattle.agda_grammar.specs.declared.sign.Kind.TheVariants as k;

use crate::cursor::Signs;
use crate::name::name_of;
use crate::stop::Stop;
use agda_grammar::Kind;
use source_tree::Name;
use sqlite_items::Items;
use std::alloc::Global;

/// Reads a name.
#[tactic(auto, unfolding(crate::specs::Syntax::name))]
pub fn read_name(alloc: Global, text: &str, signs: &mut Signs<'_>) -> Result<Name, Stop>
    ensures reads { Reads (spec.name text.now signs.old) result signs.new }
{
    let mark = signs.expect(Kind::Name)?;
    Ok(name_of(alloc, text, mark)?)
}

#[tactic(auto, unfolding(crate::specs::Syntax::one_name))]
fn one_name(alloc: Global, text: &str, signs: &mut Signs<'_>) -> Result<Option<Name>, Stop>
    ensures { Reads (spec.one_name text.now signs.old) result signs.new }
{
    if signs.sees(Kind::Name) {
        Ok(Some(read_name(alloc, text, signs)?))
    } else {
        Ok(None)
    }
}

/// Reads names while they come, after those found. `turns` is more than the signs that are left.
#[tactic(auto, unfolding(crate::specs::Syntax::names))]
pub fn read_names(
    alloc: Global,
    text: &str,
    signs: &mut Signs<'_>,
    turns: usize,
    mut found: Items<Name>,
) -> Result<Items<Name>, Stop>
    ensures reads { Reads (spec.names text.now turns found signs.old) result signs.new }
{
    for _turn in 0..turns {
        match one_name(alloc, text, signs)? {
            Some(name) => found.push(name)?,
            None => return Ok(found),
        }
    }
    Ok(found)
}
