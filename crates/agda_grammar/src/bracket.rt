/// The brackets of a typed binder.
#[derive(Clone, Copy, Debug, PartialEq, Eq)]
pub enum Bracket {
    /// `( )`, of an explicit binder.
    Round,
    /// `{ }`, of an implicit one.
    Curly,
}
