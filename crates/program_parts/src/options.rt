//! The options of a command line.
ghost use Rattle.std.specs.Prelude.{◌≡◌, false};
ghost use Rattle.clap.specs.Words.{rule_of};
ghost use Rattle.program_parts.specs.Rules.{flag_rule, long_flag_rule, valued_rule, listed_rule, number_rule, threads_rule, root_rule};

use clap::{Arg, ArgAction};
use std::alloc::Global;

/// Returns an option without a value, which may be repeated. Its name is the long word.
pub fn flag<'a>(alloc: Global, id: &'a str, short: char, help: &'a str) -> Arg<'a>
    ensures rule { rule_of result ≡ flag_rule id.entry.now short }
    ensures local { result.global ≡ false }
{
    Arg::new(alloc, id)
        .short(short)
        .long(id)
        .action(ArgAction::Count)
        .help(help)
}

/// Returns an option without a letter and without a value, which may be repeated.
pub fn long_flag<'a>(alloc: Global, id: &'a str, help: &'a str) -> Arg<'a>
    ensures rule { rule_of result ≡ long_flag_rule id.entry.now }
    ensures local { result.global ≡ false }
{
    Arg::new(alloc, id)
        .long(id)
        .action(ArgAction::Count)
        .help(help)
}

/// Returns an option with a value.
pub fn valued<'a>(alloc: Global, id: &'a str, value: &'a str, help: &'a str) -> Arg<'a>
    ensures rule { rule_of result ≡ valued_rule id.entry.now }
    ensures local { result.global ≡ false }
{
    Arg::new(alloc, id)
        .long(id)
        .value_name(value)
        .action(ArgAction::Set)
        .help(help)
}

/// Returns an option that may be repeated. Each word of the option has one value.
pub fn listed<'a>(alloc: Global, id: &'a str, short: char, value: &'a str, help: &'a str) -> Arg<'a>
    ensures rule { rule_of result ≡ listed_rule id.entry.now short }
    ensures local { result.global ≡ false }
{
    valued(alloc, id, value, help)
        .short(short)
        .action(ArgAction::Append)
}

/// Returns an option with a number.
pub fn number<'a>(alloc: Global, id: &'a str, help: &'a str) -> Arg<'a>
    ensures rule { rule_of result ≡ number_rule id.entry.now }
    ensures local { result.global ≡ false }
{
    valued(alloc, id, "N", help).value_parser(clap::value_parser!(usize))
}

/// Returns the option for the number of threads. None, or 0, is as many as can run at a time.
pub fn threads_option<'a>(alloc: Global) -> Arg<'a>
    ensures rule { rule_of result ≡ threads_rule }
    ensures local { result.global ≡ false }
{
    number(
        alloc,
        "threads",
        "Threads that read directories, or 0 for as many as can run at a time [default: 0]",
    )
    .short('j')
}

/// Returns the words that are no options: the roots.
pub fn root_option<'a>(alloc: Global, help: &'a str) -> Arg<'a>
    ensures rule { rule_of result ≡ root_rule }
    ensures local { result.global ≡ false }
{
    Arg::new(alloc, "root")
        .value_name("ROOT")
        .action(ArgAction::Append)
        .num_args(0..)
        .help(help)
}
