use source_tree::{Name, Place};
use sqlite_items::Items;
use std::alloc::{AllocError, Global};

/// The lines of a tree: one for each node, two blanks further in for each node around it.
#[derive(Drop)]
pub struct Lines {
    pub text: String,
    pub depth: usize,
    pub alloc: Global,
}

impl Lines {
    pub fn new(alloc: Global) -> Lines {
        Lines {
            text: String::new(alloc),
            depth: 1,
            alloc,
        }
    }

    /// Begins the line of a node.
    pub fn begin(&mut self, word: &str) -> Result<(), AllocError> {
        for _level in 0..self.depth {
            self.text.push_str("  ")?;
        }
        self.text.push_str(word)
    }

    pub fn end(&mut self) -> Result<(), AllocError> {
        self.text.push_str("\n")
    }

    pub fn number(&mut self, n: u32) -> Result<(), AllocError> {
        let digits = format!(in self.alloc; "{n}")?;
        self.text.push_str(digits.as_str())
    }

    /// A blank, and two numbers.
    fn numbers(&mut self, one: u32, between: &str, two: u32) -> Result<(), AllocError> {
        let words = format!(in self.alloc; " {one}{between}{two}")?;
        self.text.push_str(words.as_str())
    }

    /// A place, as in ` 0-3 1:1`: the bytes from the first to the one after the last, the line and the column.
    pub fn place(&mut self, place: Place) -> Result<(), AllocError> {
        self.numbers(place.span.start, "-", place.span.end)?;
        self.numbers(place.pos.line, ":", place.pos.col)
    }

    /// A name and its place, as in ` x 0-1 1:1`.
    pub fn name(&mut self, name: &Name) -> Result<(), AllocError> {
        self.text.push_str(" ")?;
        self.text.push_str(name.text.as_str())?;
        self.place(name.place)
    }

    pub fn names(&mut self, names: &Items<Name>) -> Result<(), AllocError> {
        for name in names.as_slice() {
            self.name(name)?;
        }
        Ok(())
    }

    /// Begins the line of a node with a place of its own.
    pub fn placed(&mut self, word: &str, place: Place) -> Result<(), AllocError> {
        self.begin(word)?;
        self.place(place)
    }

    /// Begins the line of a node with a place and a name.
    pub fn placed_name(&mut self, word: &str, place: Place, name: &Name) -> Result<(), AllocError> {
        self.placed(word, place)?;
        self.name(name)
    }

    /// Begins the line of a node with a place and names.
    pub fn group(
        &mut self,
        word: &str,
        place: Place,
        names: &Items<Name>,
    ) -> Result<(), AllocError> {
        self.placed(word, place)?;
        self.names(names)
    }

    /// The line of a node with a place of its own.
    pub fn node(&mut self, word: &str, place: Place) -> Result<(), AllocError> {
        self.placed(word, place)?;
        self.end()
    }

    /// The line of a node with a name.
    pub fn named(&mut self, word: &str, place: Place, name: &Name) -> Result<(), AllocError> {
        self.placed_name(word, place, name)?;
        self.end()
    }

    /// The line of a node that is where its name is.
    pub fn only_name(&mut self, word: &str, name: &Name) -> Result<(), AllocError> {
        self.begin(word)?;
        self.name(name)?;
        self.end()
    }

    /// Goes to the parts of a node.
    pub fn down(&mut self) {
        self.depth = self.depth.saturating_add(1);
    }

    /// Goes back to the node.
    pub fn up(&mut self) {
        self.depth = self.depth.saturating_sub(1);
    }
}
