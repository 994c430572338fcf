ghost use Rattle.std.specs.Prelude.{◌≡◌, ◌+◌, ◌<◌, ◌≤◌, ◌^◌, length};
ghost use Rattle.expr_parser.specs.Refusals as spec;

use crate::refuse::refusal;
use crate::stop::Stop;
use agda_grammar::{ParseError, ParseKind, Sign};

/// The answer to signs none of which is nested too deep, of what reading all of them gave.
pub fn settle_whole<T>(text: &str, signs: &[Sign], found: Result<T, Stop>) -> Result<T, ParseError>
    requires text_short { length text.now + 2 ≤ 2 ^ 32 }
    requires within { spec.LeftUpTo (length signs.now) found }
    ensures answer { result ≡ spec.whole_answer text.now signs.now found }
{
    match found {
        Ok(found) => Ok(found),
        Err(Stop::NoMemory) => Err(ParseError::NoMemory),
        Err(Stop::Unexpected(n)) => Err(refusal(text, signs, n, ParseKind::Unexpected)),
    }
}

/// The refusal of signs of which that behind the first `count` is the first that is nested too deep, of what reading those
/// up to it gave.
pub fn settle_front(text: &str, signs: &[Sign], count: usize, found: Result<(), Stop>) -> ParseError
    requires text_short { length text.now + 2 ≤ 2 ^ 32 }
    requires inside { count < length signs.now }
    requires within { spec.LeftUpTo (count + 1) found }
    ensures answer { result ≡ spec.front_refusal text.now signs.now count found }
{
    match found {
        Ok(()) => refusal(text, signs, signs.len() - count, ParseKind::TooNested),
        Err(Stop::NoMemory) => ParseError::NoMemory,
        Err(Stop::Unexpected(n)) => {
            if n == 0 {
                refusal(text, signs, signs.len() - count, ParseKind::TooNested)
            } else {
                refusal(
                    text,
                    signs,
                    signs.len() - (count + 1) + n,
                    ParseKind::Unexpected,
                )
            }
        }
    }
}
