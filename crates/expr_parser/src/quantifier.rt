/// A word that binds names in front of an arrow.
#[derive(Clone, Copy, Debug, PartialEq, Eq)]
pub enum Quantifier {
    All,
    Lambda,
}
