ghost use Rattle.std.specs.Prelude.{◌≡◌, ℕ, Option, None};

use term_pool::{MetaId, TermId};

/// What metavariables stand for. The solution of a metavariable stands in the context of its
/// arguments: its variable 0 is the last of them.
pub trait Solutions {
    // the id of the solution of a metavariable
    ghost solution: { Self → ℕ → Option ℕ };

    /// The solution of a metavariable, where it has one.
    fn lookup(&self, m: MetaId) -> Option<TermId>
        ensures { result ≡ solution self.now m };
}

/// No metavariable is solved.
#[derive(Clone, Copy, Debug, Drop)]
pub struct NoSolutions;

impl Solutions for NoSolutions {
    ghost solution = { λ s m. None };

    fn lookup(&self, _m: MetaId) -> Option<TermId> {
        None
    }
}
