ghost use Rattle.std.specs.Prelude.{◌≡◌, ◌++◌, map, take, OnOk};
ghost use Rattle.conversion.specs.Part.{names};
ghost use Rattle.conversion.specs.Pending.{work_of};

use crate::arguments::Part;
use term_pool::{NameId, NoMemory, TermId};

/// A pair that waits, under the first `under` names of the path and one more or none.
#[derive(Clone, Copy)]
pub(crate) struct Work {
    pub depth: u32,
    pub under: usize,
    pub binds: Option<NameId>,
    pub left: TermId,
    pub right: TermId,
}

/// Makes the path that of a pair.
pub(crate) fn enter(
    path: &mut Vec<NameId>,
    under: usize,
    binds: Option<NameId>,
) -> Result<(), NoMemory>
    ensures { OnOk result (path.new.items ≡ take under path.old.items ++ names binds) }
{
    path.truncate(under);
    if let Some(name) = binds {
        path.push(name)?;
    }
    Ok(())
}

/// Puts the parts before the pairs that wait. Of both the first one is last.
pub(crate) fn open(
    pending: &mut Vec<Work>,
    parts: &[Part],
    under: usize,
    depth: u32,
) -> Result<(), NoMemory>
    ensures { OnOk result (pending.new.items ≡ pending.old.items ++ map (work_of under depth) parts.now) }
{
    for part in parts {
        pending.push(Work {
            depth,
            under,
            binds: part.binds,
            left: part.left,
            right: part.right,
        })?;
    }
    Ok(())
}
