use crate::expr::{Binder, Expr};
use crate::pattern::Pattern;
use crate::place::{Name, Place};
use sqlite_items::Items;

/// `x y : A`: one name or more, and their type. It stands at its first name.
#[derive(Debug, Drop)]
pub struct Signature {
    pub place: Place,
    pub names: Items<Name>,
    pub ty: Expr,
}

/// `f p q = e`, or `f p q` alone. It stands at its name, and its span goes to the end of its last token, a closing parenthesis
/// among them.
#[derive(Debug, Drop)]
pub struct Clause {
    pub place: Place,
    pub name: Name,
    pub patterns: Items<Pattern>,
    pub right: Option<Expr>,
}

/// A part of a record's declaration.
#[derive(Debug, Drop)]
pub enum RecordItem {
    /// `inductive`.
    Inductive(Place),
    /// `coinductive`.
    Coinductive(Place),
    /// `constructor c`.
    Constructor(Place, Name),
    /// `field` and its block.
    Field(Place, Items<Signature>),
}

/// A declaration. Its position is its name's.
#[derive(Debug, Drop)]
pub enum Decl {
    /// `postulate` and its block. It stands at the word.
    Postulate(Place, Items<Signature>),
    /// A signature, and the clauses of its first name that follow it at once.
    Function(Place, Signature, Items<Clause>),
    /// A clause that follows no signature of its name and no other clause of such a declaration.
    Clause(Clause),
    /// `open R`, and whether `public` follows.
    Open(Place, Name, bool),
    /// `data D (x : A) : B where` and its block of constructors.
    Data(Place, Name, Items<Binder>, Expr, Items<Signature>),
    /// `record R (x : A) : B where` and its block.
    Record(Place, Name, Items<Binder>, Expr, Items<RecordItem>),
}

/// The declarations of a file, in the order of the text. Its span is the whole text.
#[derive(Debug, Drop)]
pub struct File {
    pub place: Place,
    pub decls: Items<Decl>,
}
