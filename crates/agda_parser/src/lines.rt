ghost use Rattle.std.specs.Prelude.{ℕ, List, Option};
ghost use Rattle.parse_laws.specs.Parser.{Parser, many_from};
ghost use Rattle.agda_grammar.specs.declared.sign.Sign.{Sign};
ghost use Rattle.expr_parser.specs.Cursor.{Reads};

use crate::grown::Grown;
use expr_parser::{Signs, Stop};
use std::alloc::Global;

/// What a block has one after another.
pub trait Line: Drop {
    // the next one, where one follows
    ghost next: { List ℕ → ℕ → Parser Sign (Option Self) };

    /// Reads the next one, where one follows.
    fn read_next(
        alloc: Global,
        text: &str,
        signs: &mut Signs<'_>,
        turns: usize,
    ) -> Result<Option<Self>, Stop>
        ensures { Reads (next text.now turns signs.old) result signs.new };
}

/// Reads lines while they come, after those found.
pub fn read_lines<T: Line>(
    alloc: Global,
    text: &str,
    signs: &mut Signs<'_>,
    turns: usize,
    mut found: Grown<T>,
) -> Result<Grown<T>, Stop>
    ensures { Reads (many_from (λ _. T.next text.now turns) turns found signs.old) result signs.new }
{
    for _turn in 0..turns {
        match T::read_next(alloc, text, signs, turns)? {
            Some(line) => found.push(line)?,
            None => return Ok(found),
        }
    }
    Ok(found)
}
