ghost use Rattle.std.specs.Prelude.{◌+◌, ◌≤◌, ◌^◌, length};
ghost use Rattle.agda_parser.specs.DeclarationSyntax as spec;
ghost use Rattle.expr_parser.specs.Cursor.{Reads, Answers, Checks};
ghost use Rattle.agda_grammar.specs.Declarations.{file_then, file_tree};
ghost use Rattle.agda_grammar.specs.Reading.{Settles};
ghost use Rattle.agda_parser.specs.Laid as laid_spec;

use crate::items::file;
use crate::laid::laid_signs;
use agda_grammar::{ParseError, Sign};
use agda_layout::Laid;
use agda_lexer::Token;
use expr_parser::{Signs, Stop, count_shallow, settle_front, settle_whole};
use source_tree::File;
use std::alloc::Global;

/// Reads a file and nothing behind it.
#[tactic(auto, unfolding(crate::specs::DeclarationSyntax::whole_file))]
fn whole_file(alloc: Global, text: &str, signs: &mut Signs<'_>, turns: usize) -> Result<File, Stop>
    requires text_short { length text.now + 2 ≤ 2 ^ 32 }
    ensures { Reads (spec.whole_file text.now turns signs.old) result signs.new }
{
    let found = file(alloc, text, signs, turns)?;
    signs.at_end()?;
    Ok(found)
}

/// Reads all of the signs.
fn read_file(alloc: Global, text: &str, signs: &[Sign], turns: usize) -> Result<File, Stop>
    requires text_short { length text.now + 2 ≤ 2 ^ 32 }
    ensures { Answers (spec.whole_file text.now turns signs.now) result }
{
    whole_file(alloc, text, &mut Signs::new(signs), turns)
}

/// Whether all of the signs are read.
fn check_file(alloc: Global, text: &str, signs: &[Sign], turns: usize) -> Result<(), Stop>
    requires text_short { length text.now + 2 ≤ 2 ^ 32 }
    ensures { Checks (spec.whole_file text.now turns signs.now) result }
{
    let _found = read_file(alloc, text, signs, turns)?;
    Ok(())
}

/// Reads signs that are to be a file.
fn read(alloc: Global, text: &str, signs: &[Sign]) -> Result<File, ParseError>
    requires text_short { length text.now + 2 ≤ 2 ^ 32 }
    ensures { Settles file_then (file_tree text.now) text.now signs.now result }
{
    let Some(turns) = signs.len().checked_add(1) else {
        return Err(ParseError::NoMemory);
    };
    let count = count_shallow(alloc, signs)?;
    if count < signs.len() {
        let found = check_file(alloc, text, &signs[..count + 1], turns);
        Err(settle_front(text, signs, count, found))
    } else {
        let found = read_file(alloc, text, signs, turns);
        settle_whole(text, signs, found)
    }
}

/// The file that the tokens are, which are those of the text, laid out in blocks.
///
/// # Errors
///
/// `Unexpected` at the first token that no reading allows, where a sign of a block stands for the token behind it, or at the end
/// of the text; `TooNested` at the first token that stands in more than 200 parentheses, braces, bodies of `λ` and right sides
/// of arrows; the earlier of the two; or `NoMemory`.
pub fn parse(alloc: Global, text: &str, tokens: &[Token], laid: &[Laid]) -> Result<File, ParseError>
    requires text_short { length text.now + 2 ≤ 2 ^ 32 }
    ensures { Settles file_then (file_tree text.now) text.now (laid_spec.laid_signs tokens.now laid.now) result }
{
    let signs = laid_signs(alloc, tokens, laid)?;
    read(alloc, text, &signs)
}
