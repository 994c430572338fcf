ghost use Rattle.std.specs.Prelude.{◌≡◌, ◌↔◌, None, Some, Err, IfOk, is_some, map, string_bytes, true};
ghost use Rattle.clap.specs.Words.{found_of};
ghost use Rattle.command_line.specs.Ask.{AreInRange, ask_of, limits_of, mode_of};
ghost use Rattle.command_line.specs.Command.{parts_in};
ghost use Rattle.command_line.specs.Rule.{AreValues};

use crate::command::parse;
use crate::limit::Limit;
use crate::number::value;
use crate::rule::is_accepted;
use clap::ArgMatches;
use el_outside::{NoMemory, Text};
use std::alloc::Global;
use term_pool::Limits;

/// What the words ask for.
#[derive(Debug, Drop)]
pub struct Ask {
    pub mode: Mode,
    pub limits: Limits,
}

/// A mode of the program, with its words.
#[derive(Debug, Drop)]
pub enum Mode {
    /// The report of the file of this name.
    Check(Text),
    /// Commands, line by line.
    Session,
    /// The report of a text that is made from two numbers: the seed, and how many functions.
    Gen { seed: u64, count: u32 },
}

/// Why there is no answer to what the words ask for.
#[derive(Clone, Copy, Debug, PartialEq, Eq)]
pub enum WordsError {
    /// The rule refuses the words.
    Refused,
    /// Memory ran out.
    NoMemory,
}

impl From<NoMemory> for WordsError {
    ghost use Rattle.command_line.specs.declared.ask.WordsError.TheVariants.{NoMemory as OutOfMemory};

    ghost from_gives = { λ _ e. e ≡ OutOfMemory };

    fn from(_: NoMemory) -> WordsError {
        WordsError::NoMemory
    }
}

/// The mode, of words that the rule takes.
fn read_mode(alloc: Global, matches: &ArgMatches) -> Result<Mode, NoMemory>
    requires { is_some (mode_of (parts_in (found_of matches.now)).left) ≡ true }
    ensures { IfOk result (λ mode. mode_of (parts_in (found_of matches.now)).left ≡ Some mode) }
{
    let mode = matches.get_str("mode");
    let first = matches.get_str("first");
    let second = matches.get_str("second");
    match (mode, first, second) {
        (Some("session"), None, _) => Ok(Mode::Session),
        (Some("check"), Some(name), None) => Ok(Mode::Check(Text::from_str(alloc, name)?)),
        (Some("gen"), Some(seed), Some(count)) => Ok(Mode::Gen {
            seed: value(seed),
            count: value(count) as u32,
        }),
        _ => unreachable!(),
    }
}

/// The limits, of words that the rule takes.
fn read_limits(matches: &ArgMatches) -> Limits
    requires { AreValues (parts_in (found_of matches.now)) }
    ensures is { result ≡ limits_of (parts_in (found_of matches.now)) }
    ensures ranges { AreInRange result }
{
    Limits {
        fuel: Limit::Fuel.of(matches.get_str("fuel")) as u32,
        depth: Limit::Depth.of(matches.get_str("depth")) as u32,
        order: Limit::Order.of(matches.get_str("order")),
    }
}

/// What the words ask for: the words after the program's name. To refuse words takes no memory.
pub fn read_words(alloc: Global, words: &[String]) -> Result<Ask, WordsError>
    ensures ask { IfOk result (λ ask. ask_of (map string_bytes words.now) ≡ Some ask) }
    ensures refused { (result ≡ Err WordsError.Refused) ↔ (ask_of (map string_bytes words.now) ≡ None) }
    ensures ranges { IfOk result (λ ask. AreInRange ask.limits) }
{
    if !is_accepted(words) {
        return Err(WordsError::Refused);
    }
    // The rule took the words: what is wrong here can only be that memory ran out.
    let Ok(matches) = parse(alloc, words) else {
        return Err(WordsError::NoMemory);
    };
    let mode = read_mode(alloc, &matches)?;
    let limits = read_limits(&matches);
    Ok(Ask { mode, limits })
}
