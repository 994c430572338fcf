ghost use Rattle.std.specs.Prelude.{◌≡◌, ◌≤◌, IfOk, string_bytes};
ghost use Rattle.std.specs.Str.{IsCharBoundary};
ghost use Rattle.el_outside.specs.Replaced.{replaced};

use crate::{NoMemory, Span};
use std::alloc::Global;

/// The text with `new` in the place of the span.
pub fn replace(alloc: Global, text: &str, span: Span, new: &str) -> Result<String, NoMemory>
    requires ordered { span.start ≤ span.end }
    requires start { IsCharBoundary text.now span.start }
    requires end { IsCharBoundary text.now span.end }
    ensures { IfOk result (λ s. string_bytes s ≡ replaced text.now span new.now) }
{
    let before = &text[..span.start as usize];
    let after = &text[span.end as usize..];
    let mut replaced = String::with_capacity(alloc, before.len() + new.len() + after.len())?;
    replaced.push_str(before)?;
    replaced.push_str(new)?;
    replaced.push_str(after)?;
    Ok(replaced)
}
