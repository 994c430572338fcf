/// How far a call may go: head steps of one head form, levels of one conversion, and the order of the
/// machine's moves.
#[derive(Clone, Copy, Debug, PartialEq, Eq)]
pub struct Limits {
    pub fuel: u32,
    pub depth: u32,
    pub order: u64,
}
