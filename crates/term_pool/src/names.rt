ghost use Rattle.std.specs.Prelude.{◌≡◌, ◌<◌, ◌^◌, [], ◌∷◌, ◌++◌, length, take, slice_get, Some, IfOk, OnErr};

use crate::NoMemory;
use crate::ids::NameId;
use std::alloc::Global;
use std::marker::Model;

/// The texts of names by id. A binder without a name has the empty text.
/// Contracts see the list of the texts, each as its bytes.
#[derive(Drop)]
pub struct Names {
    texts: Vec<String>,
    alloc: Global,
}

impl Model for Names {
    ghost use Rattle.std.specs.Prelude.{ℕ, List, map, ◌<◌, ◌^◌, length};
    ghost use Rattle.std.specs.String.{string_bytes};

    ghost Value = { List (List ℕ) };

    ghost view = { λ n. map string_bytes n.texts.items };

    ghost invariant = { λ n. length n.texts.items < 2 ^ 32 };
}

impl Names {
    /// No names.
    pub fn new(alloc: Global) -> Result<Names, NoMemory>
        ensures { IfOk result (λ n. n ≡ []) }
    {
        Ok(Names {
            texts: Vec::new(alloc),
            alloc,
        })
    }

    /// Gives the text the next id. Where memory runs out, the names are as before.
    pub fn add(&mut self, text: &str) -> Result<NameId, NoMemory>
        ensures id { IfOk result (λ n. n ≡ length self.old) }
        ensures ok { IfOk result (λ _. self.new ≡ self.old ++ text.now ∷ []) }
        ensures err { OnErr result (self.new ≡ self.old) }
    {
        let next = self.texts.len() as u32;
        if next == u32::MAX {
            return Err(NoMemory);
        }
        let text = String::from_str(self.alloc, text)?;
        self.texts.push(text)?;
        Ok(NameId::new(next))
    }

    /// The text of one of the ids.
    pub fn text(&self, n: NameId) -> &str
        requires { n < length self.now }
        ensures { slice_get self.now n ≡ Some result.now }
    {
        self.texts[n.number() as usize].as_str()
    }

    /// How many ids there are. They are the numbers below it.
    pub fn len(&self) -> u32
        ensures { result ≡ length self.now }
    {
        self.texts.len() as u32
    }

    /// Keeps the texts of the first `len` ids.
    pub fn cut(&mut self, len: u32)
        ensures { self.new ≡ take len self.old }
    {
        self.texts.truncate(len as usize);
    }
}
