//! What is so of the tokens of every text, be it faulty or not. Each law is the contract of a
//! function that does nothing.
ghost use Rattle.std.specs.Prelude.{◌≡◌, ◌≤◌, ◌+◌, ◌++◌, ◌∷◌, length, None, IfOk};
ghost use Rattle.std.specs.List.{All};
ghost use Rattle.agda_lexer.specs.Tokens.{cut_of, lex_of};
ghost use Rattle.agda_lexer.specs.Laws.{tokens_up_to_fault, Rise, IsOnBorders, IsPlaced, IsCovered, IsLongest, IsContinued};

/// The spans of the tokens rise and do not overlap, and they lie on borders of characters.
pub fn spans_rise(text: &str)
    ensures rise { Rise 0 (tokens_up_to_fault text.now) }
    ensures borders { All (IsOnBorders text.now) (tokens_up_to_fault text.now) }
{}

/// The same of what `lex` answers, and that a text has no more tokens than bytes: so a caller may
/// cut the text at a token's span, and count its tokens in the numbers of the text.
pub fn lexed_tokens_rise(text: &str)
    ensures rise { IfOk (lex_of text.now) (λ l. Rise 0 l.tokens) }
    ensures borders { IfOk (lex_of text.now) (λ l. All (IsOnBorders text.now) l.tokens) }
    ensures few { IfOk (lex_of text.now) (λ l. length l.tokens ≤ length text.now) }
{}

/// The line and column of a token are those at which its span begins.
pub fn tokens_are_placed(text: &str)
    ensures { All (IsPlaced text.now) (tokens_up_to_fault text.now) }
{}

/// Up to the end or the first fault there is nothing but tokens, comments, pragmas and white space.
pub fn text_is_covered(text: &str)
    ensures { IsCovered text.now }
{}

/// No character of a run follows a run, but for the run `\`.
pub fn runs_are_longest(text: &str)
    ensures { All (λ p. IsLongest text.now p.piece p) (cut_of text.now).pieces }
{}

/// A text that has no fault, and so no comment, pragma or hole without its end, has the same tokens
/// whatever follows it behind a line feed; the tokens of what follows come after them.
pub fn lines_stand_alone(before: &str, after: &str)
    ensures { (cut_of before.now).fault ≡ None → IsContinued (length before.now + 1) (tokens_up_to_fault before.now) (tokens_up_to_fault (before.now ++ 10 ∷ after.now)) }
{}
