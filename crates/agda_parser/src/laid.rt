ghost use Rattle.std.specs.Prelude.{◌≡◌, IfOk};
ghost use Rattle.agda_parser.specs.Laid as spec;

use agda_grammar::{Kind, Mark, Sign};
use agda_layout::Laid;
use agda_lexer::Token;
use el_base::Level;
use el_outside::{Pos, Span};
use expr_parser::sign_of;
use source_tree::Place;
use std::alloc::{AllocError, Global};

/// A sign that is no token.
fn border(kind: Kind, pos: Pos) -> Sign
    ensures { result ≡ spec.border kind pos }
{
    Sign {
        kind,
        mark: Mark {
            place: Place {
                span: Span { start: 0, end: 0 },
                pos,
            },
            level: Level::zero(),
        },
    }
}

/// What the grammar sees of a token or a sign of a block. A number behind the tokens is a sign that the grammar does not use.
fn laid_sign(tokens: &[Token], laid: Laid) -> Sign
    ensures { result ≡ spec.laid_sign tokens.now laid }
{
    match laid {
        Laid::Tok(at) => match tokens.get(at as usize) {
            Some(token) => sign_of(token),
            None => border(Kind::Other, Pos { line: 1, col: 1 }),
        },
        Laid::Open(pos) => border(Kind::BlockOpen, pos),
        Laid::Next(pos) => border(Kind::BlockNext, pos),
        Laid::Close(pos) => border(Kind::BlockClose, pos),
    }
}

/// What the grammar sees of each of the tokens and signs of blocks.
pub fn laid_signs(alloc: Global, tokens: &[Token], laid: &[Laid]) -> Result<Vec<Sign>, AllocError>
    ensures { IfOk result (λ v. v.items ≡ spec.laid_signs tokens.now laid.now) }
{
    let mut signs = Vec::new(alloc);
    for sign in laid {
        signs.push(laid_sign(tokens, *sign))?;
    }
    Ok(signs)
}
