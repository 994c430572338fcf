use core_rules::Flag;
use core_terms::{FieldId, TermId};
use smallvec::SmallVec;

/// An argument with its flag, or a projection.
#[derive(Clone, Copy, Debug, PartialEq, Eq, Drop)]
pub enum Elim {
    Arg { flag: Flag, arg: TermId },
    Field(FieldId),
}

/// What stands in the places of a [`Spine`] that no elimination has taken.
impl Default for Elim {
    fn default() -> Elim {
        Elim::Field(FieldId::new(0))
    }
}

/// Eliminations of a head, the first one last.
pub type Spine = SmallVec<Elim, 4>;
