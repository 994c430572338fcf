ghost use Rattle.std.specs.Prelude.{◌≡◌, List, ℕ, map, string_bytes, is_some};
ghost use Rattle.command_line.specs.Ask.{ask_of};

use crate::limit::Limit;
use crate::number::is_number_in;
use crate::word::{Kind, kind_of};

/// The most functions that a made text has.
const MOST_FUNCTIONS: u64 = 2_000;

/// What may come next.
#[derive(Clone, Copy, Debug, PartialEq, Eq)]
pub enum Next {
    /// An option, or a word that is left.
    Word,
    /// The value of this option.
    Value(Limit),
    /// A word that is left: the options ended.
    Left,
}

/// The words that are left, as far as a mode takes them.
#[derive(Clone, Copy, Debug)]
pub enum Left<'a> {
    Nothing,
    One(&'a str),
    Two(&'a str, &'a str),
    Three(&'a str, &'a str, &'a str),
    /// Too many for any mode.
    Many,
}

impl<'a> Left<'a> {
    ghost use Rattle.std.specs.Prelude.{◌≡◌, ◌++◌, ◌∷◌, [], List, ℕ, is_some};
    ghost use Rattle.command_line.specs.Ask.{mode_of};
    ghost use Rattle.command_line.specs.Seen.{IsLeft};

    fn with(self, word: &'a str) -> Left<'a>
        ensures { (words : List (List ℕ)) → IsLeft self.entry words → IsLeft result (words ++ word.entry.now ∷ []) }
    {
        match self {
            Left::Nothing => Left::One(word),
            Left::One(first) => Left::Two(first, word),
            Left::Two(first, second) => Left::Three(first, second, word),
            Left::Three(_, _, _) | Left::Many => Left::Many,
        }
    }

    /// Whether the words are a mode with its words.
    fn is_mode(self) -> bool
        ensures { (words : List (List ℕ)) → IsLeft self.entry words → result ≡ is_some (mode_of words) }
    {
        match self {
            Left::One(mode) => mode == "session",
            Left::Two(mode, _) => mode == "check",
            Left::Three(mode, seed, count) => {
                mode == "gen"
                    && is_number_in(seed, 0, u64::MAX)
                    && is_number_in(count, 0, MOST_FUNCTIONS)
            }
            Left::Nothing | Left::Many => false,
        }
    }
}

/// What was seen of the words: which options were given, and the words that are left.
#[derive(Clone, Copy, Debug)]
pub struct Seen<'a> {
    pub fuel: bool,
    pub depth: bool,
    pub order: bool,
    pub left: Left<'a>,
}

impl<'a> Seen<'a> {
    ghost use Rattle.command_line.specs.Rule.{Parts, after_word, with_left, with_value};
    ghost use Rattle.command_line.specs.Seen.{Sees, SeesAfter, SeesParts};

    /// An option with its value.
    fn with_value(self, limit: Limit, text: &str) -> Option<Seen<'a>>
        ensures { (p : Parts) → Sees self.entry p → SeesParts result (with_value limit text.now p) }
    {
        let given = match limit {
            Limit::Fuel => self.fuel,
            Limit::Depth => self.depth,
            Limit::Order => self.order,
        };
        if given || !limit.takes(text) {
            return None;
        }
        Some(match limit {
            Limit::Fuel => Seen { fuel: true, ..self },
            Limit::Depth => Seen {
                depth: true,
                ..self
            },
            Limit::Order => Seen {
                order: true,
                ..self
            },
        })
    }

    /// One more word.
    fn with_word(self, next: Next, word: &'a str) -> Option<(Next, Seen<'a>)>
        ensures { (p : Parts) → Sees self.entry p → SeesAfter result (after_word next word.entry.now p) }
    {
        match next {
            Next::Word => match kind_of(word) {
                Kind::Ends => Some((Next::Left, self)),
                Kind::Takes(limit) => Some((Next::Value(limit), self)),
                Kind::Gives(limit, text) => Some((Next::Word, self.with_value(limit, text)?)),
                Kind::Plain => Some((Next::Word, self.with_left(word))),
                Kind::Refused => None,
            },
            Next::Value(limit) => Some((Next::Word, self.with_value(limit, word)?)),
            Next::Left => Some((Next::Left, self.with_left(word))),
        }
    }

    fn with_left(self, word: &'a str) -> Seen<'a>
        ensures { (p : Parts) → Sees self.entry p → Sees result (with_left word.entry.now p) }
    {
        Seen {
            left: self.left.with(word),
            ..self
        }
    }
}

/// Whether the rule takes the words.
pub fn is_accepted(words: &[String]) -> bool
    ensures { result ≡ is_some (ask_of (map string_bytes words.now)) }
{
    let mut seen = Seen {
        fuel: false,
        depth: false,
        order: false,
        left: Left::Nothing,
    };
    let mut next = Next::Word;
    let mut rest = words;
    while let [word, after @ ..] = rest {
        let Some((then, so_far)) = seen.with_word(next, word.as_str()) else {
            return false;
        };
        next = then;
        seen = so_far;
        rest = after;
    }
    match next {
        Next::Word | Next::Left => seen.left.is_mode(),
        Next::Value(_) => false,
    }
}
