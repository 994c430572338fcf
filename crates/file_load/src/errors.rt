ghost use Rattle.std.specs.Prelude.{◌≡◌, IfOk};
ghost use Rattle.file_load.specs.Passes.{error_at as told_at};
ghost use Rattle.file_load.specs.Load as spec;

use el_outside::{Many, NoMemory, Pos, Text};
use session_text::{LoadError, LoadKind};
use std::alloc::Global;

/// An error without lines.
pub fn error_at(alloc: Global, pos: Pos, kind: LoadKind) -> LoadError
    ensures { result ≡ told_at pos kind }
{
    LoadError {
        pos,
        kind,
        lines: Many::from_vec(Vec::new(alloc)),
    }
}

/// An error that is about a name.
pub fn named_error(
    alloc: Global,
    pos: Pos,
    kind: LoadKind,
    name: Text,
) -> Result<LoadError, NoMemory>
    ensures { IfOk result (λ e. e ≡ spec.named_error pos kind name) }
{
    let mut lines = Vec::new(alloc);
    lines.push(name)?;
    Ok(LoadError {
        pos,
        kind,
        lines: Many::from_vec(lines),
    })
}
