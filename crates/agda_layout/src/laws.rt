//! What is so of the layout of every list of tokens. Each law is the contract of a function that does nothing.
ghost use Rattle.agda_layout.specs.Blocks.{laid};
ghost use Rattle.agda_layout.specs.Laws.{KeepsTokens, IsBalanced, IsRefusedOutside};

use agda_lexer::Token;

/// All tokens are laid, in their order.
pub fn tokens_are_kept(tokens: &[Token])
    ensures { KeepsTokens tokens.now (laid tokens.now) }
{}

/// Every `Open` has its `Close`, and every `Close` its `Open`.
pub fn blocks_are_closed(tokens: &[Token])
    ensures { IsBalanced (laid tokens.now) }
{}

/// `Outside` comes exactly at the first line that begins left of the column of the first token
/// behind the header; behind a broken header it never comes.
pub fn lines_outside_are_refused(tokens: &[Token])
    ensures { IsRefusedOutside tokens.now }
{}
