ghost use Rattle.std.specs.Prelude.{◌≡◌, ◌+◌, ◌<◌, ◌≤◌, ◌^◌, length, IfOk};
ghost use Rattle.std.specs.Str.{IsCharBoundary};
ghost use Rattle.std.specs.List.Sorted.{IsNonDecreasing, IsPartitionPoint};
ghost use Rattle.el_outside.specs.Place as spec;

use crate::{Cursor, NoMemory, Pos};
use std::alloc::Global;
use std::marker::Model;

/// Where the lines of a text begin, to find the place of an offset. Contracts see the text.
#[derive(Drop)]
pub struct LineTable<'a> {
    text: &'a str,
    /// Of each line after the first. The first begins at 0, and may begin with a U+FEFF.
    starts: Vec<u32>,
}

impl<'a> Model for LineTable<'a> {
    ghost use Rattle.std.specs.Prelude.{List, ℕ};

    ghost Value = { List ℕ };

    ghost use Rattle.el_outside.specs.Lines.{IsTable};

    ghost view = { λ t. t.text.now };

    ghost invariant = { IsTable };
}

impl<'a> LineTable<'a> {
    pub fn new(alloc: Global, text: &'a str) -> Result<LineTable<'a>, NoMemory>
        requires { length text.now + 2 ≤ 2 ^ 32 }
        ensures { IfOk result (λ t. t ≡ text.now) }
    {
        let mut starts = Vec::new(alloc);
        let mut cursor = Cursor::new(text);
        'chars: while let Some(c) = cursor.next_char() {
            if c != '\n' {
                continue;
            }
            starts.push(cursor.at())?;
        }
        Ok(LineTable { text, starts })
    }

    /// The line and the column of an offset. The time is logarithmic in the number of lines and
    /// linear in the length of the line. Takes no memory.
    pub fn pos(&self, at: u32) -> Pos
        requires { IsCharBoundary self.now at }
        ensures { result ≡ spec.pos_of self.now at }
    {
        let later = starts_up_to(&self.starts, at);
        let Some(last) = later.checked_sub(1) else {
            return end_of(Cursor::new(&self.text[..at as usize]));
        };
        let start = self.starts[last];
        let line = &self.text[start as usize..at as usize];
        end_of(Cursor::at_line(line, start, later as u32 + 1))
    }
}

/// How many of the starts are not past the offset.
fn starts_up_to(starts: &[u32], at: u32) -> usize
    requires { IsNonDecreasing starts.now }
    ensures bound { result ≤ length starts.now }
    ensures point { IsPartitionPoint (λ s. s ≤ at) (λ s. at < s) starts.now result }
{
    starts.partition_point(|start| *start <= at)
}

/// The place at which the text of a cursor ends.
fn end_of(mut cursor: Cursor<'_>) -> Pos
    ensures { result ≡ spec.pos (spec.end_of cursor.entry) }
{
    'walk: while cursor.next_char().is_some() {}
    cursor.pos()
}
