//! What the binder of an argument takes of what the clause writes next.

ghost use Rattle.std.specs.Prelude.{◌≡◌};
ghost use Rattle.lhs_elab.specs.Dues.{due_of};

use core_rules::Flag;
use core_terms::NameId;

/// How a pattern or a projection is written.
#[derive(Clone, Copy)]
pub(crate) enum Written {
    Plain,
    Braces,
    Named(NameId),
    Project,
}

/// The argument is for what is written, a pattern is inserted for it, or it is for nothing that is written.
#[derive(Clone, Copy, Debug, PartialEq, Eq)]
pub(crate) enum Due {
    Takes,
    Inserts,
    Refuses,
}

/// What a binder of this flag and name takes.
pub(crate) fn what_takes(flag: Flag, binder: NameId, written: Written) -> Due
    ensures { result ≡ due_of flag binder written }
{
    match (flag, written) {
        (Flag::Explicit, Written::Plain) => Due::Takes,
        (Flag::Explicit, _) => Due::Refuses,
        (Flag::Implicit, Written::Braces) => Due::Takes,
        (Flag::Implicit, Written::Named(name)) if name.number() == binder.number() => Due::Takes,
        (Flag::Implicit, _) => Due::Inserts,
    }
}
