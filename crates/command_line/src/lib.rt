//! The words of the command line: the rule that says what they ask for, and their reading with
//! `clap`.
#![tactic(auto)]

mod ask;
mod command;
mod limit;
mod number;
mod rule;
mod word;

pub use ask::{Ask, Mode, WordsError, read_words};
pub use command::parse;
pub use rule::is_accepted;
