ghost use Rattle.std.specs.Prelude.{◌≡◌, true, IfOk};
ghost use Rattle.std.specs.Str.{IsCharBoundary};
ghost use Rattle.agda_grammar.specs.Names as spec;

use agda_grammar::Mark;
use el_outside::{NoMemory, Span, Text};
use source_tree::Name;
use std::alloc::Global;

/// Whether a character of the text begins there, or the text ends.
#[tactic(auto, unfolding(agda_grammar::specs::Names::is_border))]
fn is_border(text: &str, at: usize) -> bool
    ensures value { result ≡ spec.is_border text.now at }
    ensures border { result ≡ true → IsCharBoundary text.now at }
{
    let bytes = text.as_bytes();
    at <= bytes.len() && (bytes.len() <= at || (bytes[at] < 128 || 192 <= bytes[at]))
}

#[tactic(auto, unfolding(agda_grammar::specs::Names::text_at))]
fn text_at(text: &str, span: Span) -> &str
    ensures { result.now ≡ spec.text_at text.now span }
{
    let start = span.start as usize;
    let end = span.end as usize;
    if start <= end && is_border(text, start) && is_border(text, end) {
        &text[start..end]
    } else {
        ""
    }
}

/// The name that a sign is: the bytes of the text at its span, and its place.
pub fn name_of(alloc: Global, text: &str, mark: Mark) -> Result<Name, NoMemory>
    ensures name { IfOk result (λ x. x ≡ spec.name_of text.now mark) }
{
    Ok(Name {
        text: Text::from_str(alloc, text_at(text, mark.place.span))?,
        place: mark.place,
    })
}
