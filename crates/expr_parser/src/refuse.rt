ghost use Rattle.std.specs.Prelude.{◌≡◌, ◌+◌, ◌≤◌, ◌-◌, ◌^◌, length, drop, true};
ghost use Rattle.agda_grammar.specs.Reading as spec;
ghost use Rattle.agda_grammar.specs.declared.error.ParseError.TheVariants.{Bad};

use agda_grammar::{Kind, ParseError, ParseKind, Sign};
use el_outside::{Cursor, Pos};

fn is_block(kind: Kind) -> bool
    ensures { result ≡ spec.is_block kind }
{
    match kind {
        Kind::BlockOpen | Kind::BlockNext | Kind::BlockClose => true,
        _ => false,
    }
}

/// The place behind the last character.
fn end_pos(text: &str) -> Pos
    requires { length text.now + 2 ≤ 2 ^ 32 }
    ensures { result ≡ spec.end_pos text.now }
{
    let mut cursor = Cursor::new(text);
    while let Some(_c) = cursor.peek() {
        cursor.skip();
    }
    cursor.pos()
}

/// The place of the first token of the signs, or the end of the text.
fn place_at(text: &str, signs: &[Sign]) -> Pos
    requires { length text.now + 2 ≤ 2 ^ 32 }
    ensures { result ≡ spec.place_at (spec.end_pos text.now) signs.now }
{
    for sign in signs {
        if !is_block(sign.kind) {
            return sign.mark.place.pos;
        }
    }
    end_pos(text)
}

/// The refusal of a list of which so many signs are left.
pub fn refusal(text: &str, signs: &[Sign], left: usize, kind: ParseKind) -> ParseError
    requires text_short { length text.now + 2 ≤ 2 ^ 32 }
    requires in_list { left ≤ length signs.now }
    ensures { result ≡ Bad (spec.place_at (spec.end_pos text.now) (drop (length signs.now - left) signs.now)) kind }
{
    let at = signs.len() - left;
    ParseError::Bad {
        pos: place_at(text, &signs[at..]),
        kind,
    }
}
