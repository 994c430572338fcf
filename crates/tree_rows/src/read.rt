ghost use Rattle.std.specs.Prelude.{◌+◌, ◌≤◌, ◌^◌, length};

use agda_layout::lay_out;
use agda_lexer::lex;
use agda_parser::{ParseError, parse, parse_expr};
use source_tree::{Expr, File};
use std::alloc::Global;

/// The most bytes that a text has.
pub const MOST: usize = 4_000_000;

/// Why there is no tree.
#[derive(Clone, Copy, Debug)]
pub enum NoTree {
    /// The text has no tokens, or they have no layout: no row of this program is one.
    NoTokens,
    Refused(ParseError),
}

/// The expression that a text is.
pub fn read_expr(alloc: Global, text: &str) -> Result<Expr, NoTree>
    requires { length text.now + 2 ≤ 2 ^ 32 }
{
    match lex(alloc, text) {
        Ok(lexed) => parse_expr(alloc, text, lexed.tokens.as_slice()).map_err(NoTree::Refused),
        Err(_error) => Err(NoTree::NoTokens),
    }
}

/// The file that a text is.
pub fn read_file(alloc: Global, text: &str) -> Result<File, NoTree>
    requires { length text.now + 2 ≤ 2 ^ 32 }
{
    let Ok(lexed) = lex(alloc, text) else {
        return Err(NoTree::NoTokens);
    };
    let tokens = lexed.tokens.as_slice();
    if tokens.len() > MOST {
        return Err(NoTree::NoTokens);
    }
    let Ok(laid) = lay_out(alloc, tokens) else {
        return Err(NoTree::NoTokens);
    };
    parse(alloc, text, tokens, &laid).map_err(NoTree::Refused)
}
