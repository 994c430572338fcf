ghost use Rattle.std.specs.Prelude.{◌≡◌, Some, IfErr, IfOk, is_some, map, string_bytes, true, false};
ghost use Rattle.clap.specs.Words.{app_of, found_of, kind_of, rule_of};
ghost use Rattle.command_line.specs.Ask.{ask_of};
ghost use Rattle.command_line.specs.Command.{app, option_rule, parts_in};
ghost use Rattle.command_line.specs.Rule.{nothing, read};

use crate::rule::Next;
use clap::error::ErrorKind;
use clap::{Arg, ArgMatches, Command, Error};
use std::alloc::{AllocError, Global};

/// An option with a value.
fn option<'a>(alloc: Global, name: &'a str) -> Arg<'a>
    ensures rule { rule_of result ≡ option_rule name.entry.now }
    ensures own { result.global ≡ false }
{
    Arg::new(alloc, name).long(name)
}

/// The command line as one command: three options, the mode, and its first and second word.
fn command<'a>(alloc: Global) -> Result<Command<'a>, AllocError>
    ensures { IfOk result (λ c. app_of c ≡ app) }
{
    let top = Command::new(alloc, "elab_cli")
        .no_binary_name(true)
        .disable_help_flag(true);
    let limits = top
        .arg(option(alloc, "fuel"))?
        .arg(option(alloc, "depth"))?
        .arg(option(alloc, "order"))?;
    limits
        .arg(Arg::new(alloc, "mode"))?
        .arg(Arg::new(alloc, "first"))?
        .arg(Arg::new(alloc, "second"))
}

/// Reads words that the rule takes. The matches give what the words give, and the one thing that
/// can go wrong is that memory runs out.
pub fn parse<'a>(alloc: Global, words: &'a [String]) -> Result<ArgMatches<'a>, Error>
    requires { is_some (ask_of (map string_bytes words.now)) ≡ true }
    ensures parts { IfOk result (λ m. read (map string_bytes words.entry.now) Next.Word nothing ≡ Some (parts_in (found_of m))) }
    ensures memory { IfErr result (λ e. kind_of e ≡ ErrorKind.OutOfMemory) }
{
    command(alloc)?.try_get_matches_from(words)
}
