ghost use Rattle.std.specs.Prelude.{◌≡◌, [], reverse, OnOk, IfOk, true};
ghost use Rattle.agda_layout.specs.Blocks as spec;
ghost use Rattle.agda_layout.specs.Blocks.{Gives};
ghost use Rattle.agda_layout.specs.Views.{state_of};

use crate::laid::{Laid, LayoutError};
use agda_lexer::{Token, TokenKind, Word};
use el_outside::Pos;
use std::alloc::{AllocError, Global};

/// The tokens that are laid so far.
#[derive(Drop)]
pub struct State {
    pub out: Vec<Laid>,
    /// The columns of the open blocks, the inner one at the end.
    pub stack: Vec<u32>,
    /// The place of the last token.
    pub last: Pos,
    /// Whether a block is to begin now.
    pub begins: bool,
}

fn opens_block(kind: TokenKind) -> bool
    ensures { result ≡ spec.opens_block kind }
{
    match kind {
        TokenKind::Keyword(Word::Where | Word::Postulate | Word::Field) => true,
        _ => false,
    }
}

fn is_right_of(col: u32, stack: &[u32]) -> bool
    ensures { result ≡ spec.is_right_of col (reverse stack.now) }
{
    match stack.last() {
        Some(inner) => *inner < col,
        None => true,
    }
}

fn is_at(col: u32, stack: &[u32]) -> bool
    ensures { result ≡ spec.is_at col (reverse stack.now) }
{
    match stack.last() {
        Some(inner) => col == *inner,
        None => false,
    }
}

/// Closes blocks while the column is less than that of the inner one.
fn close(out: &mut Vec<Laid>, stack: &mut Vec<u32>, pos: Pos) -> Result<(), LayoutError>
    ensures { Gives (λ _. (out.new.items, reverse stack.new.items)) (spec.closed pos out.old.items (reverse stack.old.items)) result }
{
    'closing: while let Some(col) = stack.pop() {
        if col <= pos.col {
            stack.push(col)?;
            return Ok(());
        }
        if stack.is_empty() {
            return Err(LayoutError::Outside { pos });
        }
        out.push(Laid::Close(pos))?;
    }
    Ok(())
}

impl State {
    /// The beginning of a file, behind the tokens of its header.
    pub fn new(alloc: Global, out: Vec<Laid>, last: Pos) -> State
        ensures { state_of result ≡ record { out = out.items; stack = []; last = last; begins = true } }
    {
        State {
            out,
            stack: Vec::new(alloc),
            last,
            begins: true,
        }
    }

    /// Makes room for so many tokens and for the signs of their blocks, where these are not many.
    pub fn reserve(&mut self, tokens: usize) -> Result<(), AllocError>
        ensures { state_of self.new ≡ state_of self.old }
    {
        self.out.reserve(tokens.saturating_add(tokens / 2))
    }

    /// Adds an empty block if one was to begin.
    fn empty(&mut self, pos: Pos) -> Result<(), AllocError>
        ensures { OnOk result (state_of self.new ≡ record (state_of self.old) { out = spec.emptied (state_of self.old) pos }) }
    {
        if self.begins {
            self.out.push(Laid::Open(pos))?;
            self.out.push(Laid::Close(pos))?;
        }
        Ok(())
    }

    /// Lays the next token, which is that of number `i`.
    #[tactic(auto, unfolding(crate::specs::Blocks::step))]
    pub fn step(&mut self, i: u32, token: &Token) -> Result<(), LayoutError>
        ensures { Gives (λ _. state_of self.new) (spec.step (state_of self.old) i token.now) result }
    {
        let pos = token.pos;
        if self.begins && is_right_of(pos.col, &self.stack) {
            self.out.push(Laid::Open(pos))?;
            self.stack.push(pos.col)?;
        } else {
            self.empty(pos)?;
            if pos.line != self.last.line {
                close(&mut self.out, &mut self.stack, pos)?;
                if is_at(pos.col, &self.stack) {
                    self.out.push(Laid::Next(pos))?;
                }
            }
        }
        self.out.push(Laid::Tok(i))?;
        self.last = pos;
        self.begins = opens_block(token.kind);
        Ok(())
    }

    /// Closes all blocks.
    pub fn finish(mut self) -> Result<Vec<Laid>, AllocError>
        ensures { IfOk result (λ v. v.items ≡ spec.ended (state_of self)) }
    {
        let last = self.last;
        self.empty(last)?;
        'closing: while self.stack.pop().is_some() {
            self.out.push(Laid::Close(last))?;
        }
        Ok(self.out)
    }
}
