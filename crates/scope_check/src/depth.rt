/// Where a pattern stands: in a constructor pattern, or not.
#[derive(Clone, Copy, Debug, PartialEq, Eq)]
pub enum Depth {
    Outer,
    Inner,
}
