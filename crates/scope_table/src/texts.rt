ghost use Rattle.std.specs.Prelude.{◌≡◌, ◌≤◌, [], length, take, slice_get, not, is_some, Some, IfOk, OnOk, OnErr, MatchOption};
ghost use Rattle.scope_table.specs.Known.{place_of, with_text};

use el_outside::{NoMemory, Text};
use indexmap::IndexSet;
use sqlite_items::Items;
use std::alloc::Global;
use std::marker::Model;

/// Texts, none of which stands twice. Contracts see their list.
#[derive(Drop)]
pub struct Texts {
    keys: IndexSet<String>,
    alloc: Global,
}

impl Model for Texts {
    ghost use Rattle.std.specs.Prelude.{◌<◌, ◌^◌, ℕ, List, length, map, string_bytes};

    ghost Value = { List (List ℕ) };

    ghost view = { λ t. map string_bytes t.keys.keys };

    ghost invariant = { λ t. length t.keys.keys < 2 ^ 32 };
}

impl Texts {
    pub fn new(alloc: Global) -> Texts
        ensures { result ≡ [] }
    {
        Texts {
            keys: IndexSet::new(alloc),
            alloc,
        }
    }

    pub fn len(&self) -> u32
        ensures { result ≡ length self.now }
    {
        self.keys.len() as u32
    }

    /// The place of a text.
    pub fn find(&self, text: &str) -> Option<u32>
        ensures { result ≡ place_of self.now text.now }
    {
        match self.keys.get_index_of(text) {
            Some(place) => Some(place as u32),
            None => None,
        }
    }

    /// Puts a text after the others, unless it is there, and says whether it is new.
    pub fn put(&mut self, text: &str) -> Result<bool, NoMemory>
        ensures ok { OnOk result (self.new ≡ with_text self.old text.now) }
        ensures is { IfOk result (λ b. b ≡ not (is_some (place_of self.old text.now))) }
        ensures err { OnErr result (self.new ≡ self.old) }
    {
        if self.find(text).is_some() {
            return Ok(false);
        }
        if self.keys.len() as u32 == u32::MAX {
            return Err(NoMemory);
        }
        let text = String::from_str(self.alloc, text)?;
        let Ok(_) = self.keys.insert(text) else {
            return Err(NoMemory);
        };
        Ok(true)
    }

    /// The text at a place.
    pub fn get(&self, at: usize) -> Option<&str>
        ensures { MatchOption result (length self.now ≤ at) (λ t. slice_get self.now at ≡ Some t.now) }
    {
        match self.keys.get_index(at) {
            Some(text) => Some(text.as_str()),
            None => None,
        }
    }

    /// The texts as a list.
    pub fn copy(&self, alloc: Global) -> Result<Items<Text>, NoMemory>
        ensures { IfOk result (λ xs. xs ≡ self.now) }
    {
        let mut found = Items::new(alloc);
        for at in 0..self.keys.len() {
            let Some(text) = self.get(at) else {
                return Err(NoMemory);
            };
            found.push(Text::from_str(alloc, text)?)?;
        }
        Ok(found)
    }

    /// Keeps the first `len` texts.
    pub fn cut(&mut self, len: u32)
        ensures { self.new ≡ take len self.old }
    {
        self.keys.truncate(len as usize);
    }
}
