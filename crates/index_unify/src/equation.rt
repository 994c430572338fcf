use core_terms::TermId;

/// Two terms that are to become the same.
#[derive(Clone, Copy, Debug, PartialEq, Eq)]
pub struct Equation {
    pub left: TermId,
    pub right: TermId,
}

/// A variable of the context with its value.
#[derive(Clone, Copy)]
pub(crate) struct Solution {
    pub var: u32,
    pub value: TermId,
}
