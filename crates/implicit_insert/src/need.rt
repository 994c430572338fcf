use core_terms::{FamId, FieldId, MetaId, NameId, Row, TermId};

/// What stands next in a spine.
#[derive(Clone, Copy, Debug, PartialEq, Eq)]
pub enum Next {
    /// The spine is at its end.
    Nothing,
    /// `e`
    Plain,
    /// `{e}`
    Braces,
    /// `{x = e}`
    Named(NameId),
    /// `.f`
    Field(FieldId),
}

/// What the type asks for, with the domain and the codomain of a function type. The codomain has one variable more.
#[derive(Drop)]
pub enum Need {
    /// The argument is given without braces.
    Explicit { dom: TermId, cod: TermId },
    /// The argument is given in braces.
    Given { dom: TermId, cod: TermId },
    /// An argument is inserted before what stands next.
    Insert { dom: TermId, cod: TermId },
    /// The projection is of a field of this record, which the type is at these parameters, in the order of the record.
    Project { fam: FamId, params: Row<TermId> },
    /// Nothing stands next, and nothing is inserted.
    End,
    /// A plain argument at this head form, which is no function type.
    NotAFunction { ty: TermId },
    /// A projection at this head form, which is no record that has the field.
    NotARecord { ty: TermId },
    /// An argument in braces where no implicit one is left to take it.
    NoSuchName,
    /// The head form waits for this unsolved metavariable.
    Blocked { meta: MetaId },
    OutOfFuel,
    NoMemory,
}
