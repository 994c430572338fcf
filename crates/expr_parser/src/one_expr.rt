ghost use Rattle.std.specs.Prelude.{◌+◌, ◌≤◌, ◌^◌, length};
ghost use Rattle.expr_parser.specs.Syntax as spec;
ghost use Rattle.expr_parser.specs.Cursor.{Reads, Answers, Checks};
ghost use Rattle.agda_grammar.specs.Grammar.{then, tree};
ghost use Rattle.agda_grammar.specs.Reading.{Settles};
ghost use Rattle.expr_parser.specs.Token as token_spec;

use crate::answer::{settle_front, settle_whole};
use crate::cursor::Signs;
use crate::exprs::read_expr;
use crate::nesting::count_shallow;
use crate::stop::Stop;
use crate::token::signs_of;
use agda_grammar::{ParseError, Sign};
use agda_lexer::Token;
use source_tree::Expr;
use std::alloc::Global;

/// Reads an expression and nothing behind it.
#[tactic(auto, unfolding(crate::specs::Syntax::whole_expr))]
fn whole_expr(alloc: Global, text: &str, signs: &mut Signs<'_>, turns: usize) -> Result<Expr, Stop>
    ensures { Reads (spec.whole_expr text.now turns signs.old) result signs.new }
{
    let found = read_expr(alloc, text, signs, turns)?;
    signs.at_end()?;
    Ok(found)
}

/// Reads all of the signs.
fn read_signs(alloc: Global, text: &str, signs: &[Sign], turns: usize) -> Result<Expr, Stop>
    ensures { Answers (spec.whole_expr text.now turns signs.now) result }
{
    whole_expr(alloc, text, &mut Signs::new(signs), turns)
}

/// Whether all of the signs are read.
fn check_signs(alloc: Global, text: &str, signs: &[Sign], turns: usize) -> Result<(), Stop>
    ensures { Checks (spec.whole_expr text.now turns signs.now) result }
{
    let _found = read_signs(alloc, text, signs, turns)?;
    Ok(())
}

/// Reads signs that are to be an expression.
fn read(alloc: Global, text: &str, signs: &[Sign]) -> Result<Expr, ParseError>
    requires text_short { length text.now + 2 ≤ 2 ^ 32 }
    ensures { Settles then (tree text.now) text.now signs.now result }
{
    let Some(turns) = signs.len().checked_add(1) else {
        return Err(ParseError::NoMemory);
    };
    let count = count_shallow(alloc, signs)?;
    if count < signs.len() {
        let found = check_signs(alloc, text, &signs[..count + 1], turns);
        Err(settle_front(text, signs, count, found))
    } else {
        let found = read_signs(alloc, text, signs, turns);
        settle_whole(text, signs, found)
    }
}

/// The expression that the tokens are, which are those of the text.
///
/// # Errors
///
/// `Unexpected` at the first token that no reading allows, or at the end of the text; `TooNested` at the first token that
/// stands in more than 200 parentheses, braces, bodies of `λ` and right sides of arrows; the earlier of the two; or `NoMemory`.
pub fn parse_expr(alloc: Global, text: &str, tokens: &[Token]) -> Result<Expr, ParseError>
    requires text_short { length text.now + 2 ≤ 2 ^ 32 }
    ensures { Settles then (tree text.now) text.now (token_spec.signs_of tokens.now) result }
{
    let signs = signs_of(alloc, tokens)?;
    read(alloc, text, &signs)
}
