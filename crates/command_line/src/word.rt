ghost use Rattle.std.specs.Prelude.{◌≡◌};
ghost use Rattle.command_line.specs.Word.{is_option, kind_now, kind_of, option_kind};

use crate::limit::Limit;

/// What a word is, where options may stand.
#[derive(Clone, Copy, Debug, PartialEq, Eq)]
pub enum Kind<'a> {
    /// `--`, the end of the options.
    Ends,
    /// An option whose value is the next word.
    Takes(Limit),
    /// An option with its value, which stands after `=`.
    Gives(Limit, &'a str),
    /// A word that is left to the mode.
    Plain,
    /// A word that no command line has.
    Refused,
}

/// Whether a word begins with `-` and is longer.
fn is_option(word: &str) -> bool
    ensures { result ≡ is_option word.now }
{
    match word.as_bytes() {
        [first, _, ..] => *first == b'-',
        _ => false,
    }
}

/// What an option's word is.
fn option_kind(word: &str) -> Kind<'_>
    ensures { kind_now result ≡ option_kind word.now }
{
    match word.split_once('=') {
        Some((name, value)) => match Limit::named(name) {
            Some(limit) => Kind::Gives(limit, value),
            None => Kind::Refused,
        },
        None => match Limit::named(word) {
            Some(limit) => Kind::Takes(limit),
            None => Kind::Refused,
        },
    }
}

/// What a word is.
pub fn kind_of(word: &str) -> Kind<'_>
    ensures { kind_now result ≡ kind_of word.now }
{
    if word == "--" {
        return Kind::Ends;
    }
    if is_option(word) {
        option_kind(word)
    } else {
        Kind::Plain
    }
}
