ghost use Rattle.std.specs.Prelude.{◌≡◌, length};
ghost use Rattle.core_terms.specs.Patterns.{pats_of};

use core_terms::{CheckedLeft, CorePat, Entry, Solved, Telescope};

/// The entries of a context, the outermost first.
pub(crate) fn entries_in(context: &Telescope) -> &[Entry]
    ensures { result.now ≡ context.now }
{
    context.entries.as_slice()
}

/// The patterns of a left side.
pub(crate) fn pats_in(left: &CheckedLeft) -> &[CorePat]
    ensures { pats_of result.now ≡ left.now.pats }
{
    left.pats.as_slice()
}

/// How many entries a left side has.
pub(crate) fn count_in(left: &CheckedLeft) -> usize
    ensures { result ≡ length left.now.context }
{
    left.context.entries.len()
}

/// The solved names of a left side.
pub(crate) fn named_in(left: &CheckedLeft) -> &[Solved]
    ensures { result.now ≡ left.now.named }
{
    left.named.as_slice()
}
