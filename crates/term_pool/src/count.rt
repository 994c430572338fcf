ghost use Rattle.std.specs.Prelude.{◌≡◌, ◌<◌, length, Ok};
ghost use Rattle.term_pool.specs.Count.{count_of};
ghost use Rattle.term_pool.specs.Pool.{tree};

use crate::NoMemory;
use crate::ids::TermId;
use crate::measures::{MOST_LEVELS, MOST_NODES};
use crate::pool::TermPool;

/// How large a term is as a tree, whatever of it is shared.
#[derive(Clone, Copy, Debug, PartialEq, Eq)]
pub enum Count {
    Within { nodes: u32, depth: u32 },
    /// It has more nodes or more levels than a declaration may have.
    TooLarge,
}

/// The nodes and the levels of a term. The pool counts them as it makes the term, so this takes
/// neither time nor memory.
pub fn count_nodes(pool: &TermPool, t: TermId) -> Result<Count, NoMemory>
    requires { t < length pool.now.trees }
    ensures { result ≡ Ok (count_of (tree pool.now t)) }
{
    let whole = pool.measures(t).whole;
    if whole.nodes > MOST_NODES || whole.depth > MOST_LEVELS {
        return Ok(Count::TooLarge);
    }
    Ok(Count::Within {
        nodes: whole.nodes,
        depth: whole.depth,
    })
}
