use term_pool::{ConId, DefId, FamId, FieldId};

/// What a name outside every binder stands for.
#[derive(Clone, Copy, Debug, PartialEq, Eq)]
pub enum GlobalId {
    /// A postulate or a function.
    Def(DefId),
    /// A data or record type.
    Family(FamId),
    Con(ConId),
    Field(FieldId),
}
