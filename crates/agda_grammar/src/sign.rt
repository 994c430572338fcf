use el_base::Level;
use source_tree::Place;

/// What the grammar sees of a token or of a sign of a block.
#[derive(Clone, Copy, Debug, PartialEq, Eq)]
pub enum Kind {
    Name,
    Qualified,
    SetLevel,
    Hole,
    Underscore,
    ParenOpen,
    ParenClose,
    BraceOpen,
    BraceClose,
    Semicolon,
    Dot,
    Colon,
    Equals,
    Arrow,
    Lambda,
    All,
    Module,
    Postulate,
    Open,
    Public,
    Data,
    Record,
    Where,
    Inductive,
    Coinductive,
    Constructor,
    Field,
    /// A reserved word that the grammar does not use, or `|`.
    Other,
    BlockOpen,
    BlockNext,
    BlockClose,
}

/// What a sign is beside its kind.
#[derive(Clone, Copy, Debug, PartialEq, Eq)]
pub struct Mark {
    pub place: Place,
    /// The level of a `Set`, and 0 elsewhere.
    pub level: Level,
}

/// A token or a sign of a block.
#[derive(Clone, Copy, Debug, PartialEq, Eq)]
pub struct Sign {
    pub kind: Kind,
    pub mark: Mark,
}
