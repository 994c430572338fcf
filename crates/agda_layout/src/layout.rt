ghost use Rattle.std.specs.Prelude.{◌≡◌, ◌<◌, ◌^◌, ◌+◌, length, IfOk};
ghost use Rattle.agda_layout.specs.Blocks as spec;
ghost use Rattle.agda_layout.specs.Blocks.{Gives};
ghost use Rattle.agda_layout.specs.Views.{state_of};

use crate::header::{Header, header_of};
use crate::laid::{Laid, LayoutError};
use crate::state::State;
use agda_lexer::Token;
use el_outside::Pos;
use std::alloc::{AllocError, Global};

fn alone(alloc: Global, tokens: &[Token]) -> Result<Vec<Laid>, AllocError>
    requires { length tokens.now < 2 ^ 32 }
    ensures { IfOk result (λ v. v.items ≡ spec.alone 0 tokens.now) }
{
    let mut out = Vec::with_capacity(alloc, tokens.len())?;
    for (i, _) in tokens.iter().enumerate() {
        out.push(Laid::Tok(i as u32))?;
    }
    Ok(out)
}

/// Lays the tokens behind the first `from`.
fn lay_out_from(mut state: State, tokens: &[Token], from: u32) -> Result<Vec<Laid>, LayoutError>
    requires { from + length tokens.now < 2 ^ 32 }
    ensures { Gives (λ v. v.items) (spec.out_of (spec.steps (state_of state) from tokens.now)) result }
{
    state.reserve(tokens.len())?;
    for (i, token) in tokens.iter().enumerate() {
        state.step(from + i as u32, token)?;
    }
    Ok(state.finish()?)
}

/// Lays the tokens behind a whole header.
fn behind_header(alloc: Global, tokens: &[Token]) -> Result<Vec<Laid>, LayoutError>
    requires { length tokens.now < 2 ^ 32 }
    ensures { Gives (λ v. v.items) (spec.behind_header tokens.now) result }
{
    match tokens {
        [_, _, last, body @ ..] => {
            let header = vec![in alloc; Laid::Tok(0), Laid::Tok(1), Laid::Tok(2)]?;
            lay_out_from(State::new(alloc, header, last.pos), body, 3)
        }
        _ => Ok(alone(alloc, tokens)?),
    }
}

/// The tokens, of which there are fewer than 2^32, with the signs of their blocks.
///
/// A header `module NAME where` is left as it is. If the tokens begin with `module` and otherwise
/// than a header, the answer is the tokens alone.
///
/// # Errors
///
/// `Outside` at the first token of a line that begins left of the file's block; or want of memory.
#[tactic(auto, unfolding(crate::specs::Blocks::laid))]
pub fn lay_out(alloc: Global, tokens: &[Token]) -> Result<Vec<Laid>, LayoutError>
    requires { length tokens.now < 2 ^ 32 }
    ensures { Gives (λ v. v.items) (spec.laid tokens.now) result }
{
    match header_of(tokens) {
        Header::Absent => {
            let start = Pos { line: 1, col: 1 };
            lay_out_from(State::new(alloc, Vec::new(alloc), start), tokens, 0)
        }
        Header::Whole => behind_header(alloc, tokens),
        Header::Broken => Ok(alone(alloc, tokens)?),
    }
}
