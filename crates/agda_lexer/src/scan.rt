ghost use Rattle.std.specs.Prelude.{◌≡◌};
ghost use Rattle.agda_lexer.specs.Characters as spec;

use el_outside::{CharSet, is_white};

/// What a longest sequence is made of.
#[derive(Clone, Copy, Debug)]
pub enum Class {
    /// Neither white space nor a character that stands apart.
    Run,
    White,
    /// No line feed.
    Line,
}

impl CharSet for Class {
    ghost use Rattle.agda_lexer.specs.Characters.{is_in};

    ghost holds = { is_in };

    fn has(&self, c: char) -> bool {
        match self {
            Class::Run => !(is_white(c) || is_special(c)),
            Class::White => is_white(c),
            Class::Line => c != '\n',
        }
    }
}

/// Whether a character always stands apart: `( ) { } . ; @ "`.
pub fn is_special(c: char) -> bool
    ensures { result ≡ spec.is_special c }
{
    c == '(' || c == ')' || c == '{' || c == '}' || c == '.' || c == ';' || c == '@' || c == '"'
}
