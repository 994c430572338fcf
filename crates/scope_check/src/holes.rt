/// Whether holes may stand in an expression. In a dotted pattern they may not.
#[derive(Clone, Copy, Debug, PartialEq, Eq)]
pub enum Holes {
    Allowed,
    Misplaced,
}
