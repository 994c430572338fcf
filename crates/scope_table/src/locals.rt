ghost use Rattle.std.specs.Prelude.{◌≡◌, ◌≤◌, ◌<◌, ℕ, List, ◌∷◌, [], length, drop, slice_index_or, OnOk};
ghost use Rattle.scope_table.specs.Known.{place_of, Inside};

use crate::texts::Texts;
use el_outside::NoMemory;
use std::alloc::Global;
use std::marker::Model;

/// A variable: the place of its text in the list of texts, and the depth of the variable that it hides, or 0.
#[derive(Clone, Copy)]
struct Variable {
    text: u32,
    hides: u32,
}

/// The variables around an expression. Contracts see their texts, the innermost first; a variable without a name has the empty
/// text.
///
/// A variable's depth is how many variables there are up to it, counted from the outermost. For each text `innermost` has the
/// depth of the innermost variable with this text, or 0 where there is none. So a variable is found by one look-up, and each
/// that is cut off gives its place back to the one that it hides. Texts stay when their variables are cut off, so a text is
/// copied once.
#[derive(Drop)]
pub struct Locals {
    texts: Texts,
    innermost: Vec<u32>,
    variables: Vec<Variable>,
}

impl Model for Locals {
    ghost use Rattle.std.specs.Prelude.{ℕ, List, map, reverse};
    ghost use Rattle.scope_table.specs.Innermost.{text_of, Kept};

    ghost Value = { List (List ℕ) };

    ghost view = { λ l. map (text_of l.texts) (reverse l.variables.items) };

    ghost invariant = { λ l. Kept l.texts l.innermost.items (reverse l.variables.items) };
}

/// Room for the depth at this place, which is at most the next one.
fn make_room(depths: &mut Vec<u32>, at: usize) -> Result<(), NoMemory>
    requires { at ≤ length depths.old.items }
    ensures room { OnOk result (at < length depths.new.items) }
    ensures same { (k : ℕ) → slice_index_or depths.new.items k 0 ≡ slice_index_or depths.old.items k 0 }
    ensures longer { length depths.old.items ≤ length depths.new.items }
{
    if at == depths.len() {
        let Ok(()) = depths.push(0) else {
            return Err(NoMemory);
        };
    }
    Ok(())
}

impl Locals {
    pub fn new(alloc: Global) -> Locals
        ensures { result ≡ [] }
    {
        Locals {
            texts: Texts::new(alloc),
            innermost: Vec::new(alloc),
            variables: Vec::new(alloc),
        }
    }

    pub fn len(&self) -> usize
        ensures { result ≡ length self.now }
    {
        self.variables.len()
    }

    /// The innermost variable of this text, counted from the innermost.
    pub fn find(&self, text: &str) -> Option<u32>
        ensures { result ≡ place_of self.now text.now }
    {
        let Some(at) = self.texts.find(text) else {
            return None;
        };
        let depth = self.innermost[at as usize];
        if depth == 0 {
            return None;
        }
        Some(self.variables.len() as u32 - depth)
    }

    /// One variable more, inside the others.
    pub fn push(&mut self, text: &str) -> Result<(), NoMemory>
        ensures { OnOk result (self.new ≡ text.now ∷ self.old) }
    {
        if self.variables.len() as u32 == u32::MAX {
            return Err(NoMemory);
        }
        let at = self.texts.find(text).unwrap_or(self.texts.len());
        make_room(&mut self.innermost, at as usize)?;
        self.texts.put(text)?;
        let hides = self.innermost[at as usize];
        let Ok(()) = self.variables.push(Variable { text: at, hides }) else {
            return Err(NoMemory);
        };
        let depth = self.variables.len() as u32;
        self.innermost[at as usize] = depth;
        Ok(())
    }

    /// The outermost variables, so many as there were. It takes a step for each of the others.
    pub fn cut(&mut self, len: usize)
        ensures { (outer : List (List ℕ)) → Inside outer self.old → length outer ≡ len → self.new ≡ outer }
    {
        while self.len() > len {
            self.pop();
        }
    }

    /// Without the innermost variable.
    fn pop(&mut self)
        ensures { self.new ≡ drop 1 self.old }
    {
        let Some(variable) = self.variables.pop() else {
            return;
        };
        self.innermost[variable.text as usize] = variable.hides;
    }
}
