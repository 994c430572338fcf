ghost use Rattle.std.specs.Prelude.{◌≡◌, ◌+◌, ◌≤◌, ◌^◌, ℕ, Bool, length, drop, [], ◌∷◌, MatchOption};
ghost use Rattle.std.specs.Str.{chars, encode_utf8_all};
ghost use Rattle.el_outside.specs.Place as spec;
ghost use Rattle.el_outside.specs.Runs.{front, past, is_white};

use crate::Pos;
use std::marker::Model;

/// Whether a character is white space: Unicode's White_Space, or U+FEFF.
pub fn is_white(c: char) -> bool
    ensures { result ≡ is_white c }
{
    c.is_whitespace() || c == '\u{FEFF}'
}

/// A set of characters, by its test.
pub trait CharSet {
    ghost holds: { Self → ℕ → Bool };

    fn has(&self, c: char) -> bool
        ensures { result ≡ holds self.now c };
}

/// What is left of a text. Contracts see its characters and the place of the first.
#[derive(Drop)]
pub struct Cursor<'a> {
    rest: &'a str,
    at: u32,
    line: u32,
    col: u32,
}

impl<'a> Model for Cursor<'a> {
    ghost use Rattle.el_outside.specs.Place.{Rest};

    ghost Value = { Rest };

    ghost use Rattle.el_outside.specs.View.{rest_of, IsSound};

    ghost view = { rest_of };

    ghost invariant = { IsSound };
}

impl<'a> Cursor<'a> {
    /// The whole text, but for a U+FEFF that begins it.
    pub fn new(text: &'a str) -> Cursor<'a>
        requires { length text.now + 2 ≤ 2 ^ 32 }
        ensures { result ≡ spec.start (chars text.now) }
    {
        let mut after = text.chars();
        let Some(c) = after.next() else {
            return Cursor {
                rest: text,
                at: 0,
                line: 1,
                col: 1,
            };
        };
        if c == '\u{FEFF}' {
            return Cursor {
                rest: after.as_str(),
                at: 3,
                line: 1,
                col: 1,
            };
        }
        Cursor {
            rest: text,
            at: 0,
            line: 1,
            col: 1,
        }
    }

    /// A text whose first character stands at this offset and begins this line.
    pub(crate) fn at_line(text: &'a str, at: u32, line: u32) -> Cursor<'a>
        requires fits { at + length text.now + 2 ≤ 2 ^ 32 }
        requires line { line ≤ at + 1 }
        ensures { result ≡ record { chars = chars text.now; place = record { at = at; line = line; col = 1 } } }
    {
        Cursor {
            rest: text,
            at,
            line,
            col: 1,
        }
    }

    /// The line and the column of the first character that is left.
    pub fn pos(&self) -> Pos
        ensures { result ≡ spec.pos self.now.place }
    {
        Pos {
            line: self.line,
            col: self.col,
        }
    }

    /// The bytes of the text that stand before what is left.
    pub fn at(&self) -> u32
        ensures { result ≡ self.now.place.at }
    {
        self.at
    }

    /// The text that is left.
    pub fn rest(&self) -> &'a str
        ensures { result.now ≡ encode_utf8_all self.now.chars }
    {
        // A call's answer is known to be UTF-8, and a field is not.
        self.rest.chars().as_str()
    }

    /// A cursor that goes its own way from here, to look ahead or to come back to.
    pub fn copy(&self) -> Cursor<'a>
        ensures { result ≡ self.now }
    {
        Cursor {
            rest: self.rest,
            at: self.at,
            line: self.line,
            col: self.col,
        }
    }

    /// The first character that is left.
    pub fn peek(&self) -> Option<char>
        ensures { MatchOption result (self.now.chars ≡ []) (λ c. self.now.chars ≡ c ∷ drop 1 self.now.chars) }
    {
        self.rest.chars().next()
    }

    /// Takes the first character.
    pub fn next_char(&mut self) -> Option<char>
        ensures first { MatchOption result (self.old.chars ≡ []) (λ c. self.old.chars ≡ c ∷ self.new.chars) }
        ensures moved { self.new ≡ spec.next self.old }
    {
        let mut rest = self.rest.chars();
        let c = rest.next()?;
        self.rest = rest.as_str();
        self.at += c.len_utf8() as u32;
        if c == '\n' {
            self.line += 1;
            self.col = 1;
        } else {
            self.col += 1;
        }
        Some(c)
    }

    /// Passes over the first character. At the end it stays.
    pub fn skip(&mut self)
        ensures { self.new ≡ spec.next self.old }
    {
        let _ = self.next_char();
    }

    /// Whether this character comes first.
    pub fn sees(&self, c: char) -> bool
        ensures { result ≡ spec.sees c self.now.chars }
    {
        match self.peek() {
            Some(first) => first == c,
            None => false,
        }
    }

    /// Whether this character comes second.
    pub fn sees_second(&self, c: char) -> bool
        ensures { result ≡ spec.sees c (spec.next self.now).chars }
    {
        let mut ahead = self.copy();
        ahead.skip();
        ahead.sees(c)
    }

    /// The text from here up to a later cursor over the same text.
    pub fn up_to(&self, later: &Cursor<'a>) -> &'a str
        requires { spec.LeadsTo self.now later.now }
        ensures { result.now ≡ encode_utf8_all (spec.between self.now later.now) }
    {
        let rest = self.rest();
        let len = rest.len() - later.rest().len();
        &rest[..len]
    }

    /// Takes the longest sequence of characters of the set, and answers its text.
    pub fn longest<S: CharSet>(&mut self, set: &S) -> &'a str
        ensures text { result.now ≡ encode_utf8_all (front (S.holds set.now) self.old.chars) }
        ensures after { self.new ≡ past (S.holds set.now) self.old }
    {
        let start = self.copy();
        'run: while let Some(c) = self.peek() {
            if !set.has(c) {
                break;
            }
            self.skip();
        }
        start.up_to(self)
    }
}
