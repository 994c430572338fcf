ghost use Rattle.std.specs.Prelude.{◌≡◌, ◌↔◌, IsTrue};

use el_outside::{Pos, Span, Text};

/// Where a part of a tree stands: its bytes in the text, and the line and the column at which errors about it are shown.
#[derive(Clone, Copy, Debug, PartialEq, Eq)]
pub struct Place {
    pub span: Span,
    pub pos: Pos,
}

impl Place {
    ghost use Rattle.source_tree.specs.Places.{joined};

    /// The place from the beginning of this one to the end of `last`.
    pub fn to(self, last: Place) -> Place
        ensures { result ≡ joined self last }
    {
        Place {
            span: Span {
                start: self.span.start,
                end: last.span.end,
            },
            pos: self.pos,
        }
    }

    /// Whether the two are equal: the bytes, the line and the column.
    pub fn same(&self, other: &Place) -> bool
        ensures { IsTrue result ↔ (self.now ≡ other.now) }
    {
        self == other
    }
}

/// A name, or a qualified name with its dot, as the text has it.
#[derive(Debug, Drop)]
pub struct Name {
    pub text: Text,
    pub place: Place,
}

impl Name {
    /// Whether the two are equal: the text, byte for byte, and the place.
    pub fn same(&self, other: &Name) -> bool
        ensures { IsTrue result ↔ (self.now ≡ other.now) }
    {
        self.text.as_str() == other.text.as_str() && self.place.same(&other.place)
    }
}
