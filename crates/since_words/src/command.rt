//! The command line.
ghost use Rattle.std.specs.Prelude.{◌≡◌, ◌∷◌, [], false, IfOk};
ghost use Rattle.clap.specs.Words.{app_of, rule_of};
ghost use Rattle.program_parts.specs.Rules.{HaveRules};
ghost use Rattle.since_words.specs.Command.{choice_rules, depth_rule, file_rule, named_app, option_rules, place_rules, since_app, tree_rule};

use clap::{Arg, Command};
use program_parts::options::{flag, listed, long_flag, number, threads_option};
use program_parts::version::VERSION;
use std::alloc::{AllocError, Global};

/// Returns the first word that is no option, without which no call is good.
fn file_option<'a>(alloc: Global) -> Arg<'a>
    ensures rule { rule_of result ≡ file_rule }
    ensures local { result.global ≡ false }
{
    Arg::new(alloc, "file")
        .value_name("FILE")
        .required(true)
        .help("The file with the snapshot")
}

fn tree_option<'a>(alloc: Global) -> Arg<'a>
    ensures rule { rule_of result ≡ tree_rule }
    ensures local { result.global ≡ false }
{
    Arg::new(alloc, "root").value_name("ROOT").help(
        "What to compare with it [default: the root in FILE, or else the folder that it runs in]",
    )
}

fn places<'a>(alloc: Global) -> Result<Vec<Arg<'a>>, AllocError>
    ensures { IfOk result (λ options. HaveRules options.items place_rules) }
{
    Ok(vec![in alloc; file_option(alloc), tree_option(alloc)]?)
}

fn options<'a>(alloc: Global) -> Result<Vec<Arg<'a>>, AllocError>
    ensures { IfOk result (λ options. HaveRules options.items option_rules) }
{
    Ok(vec![in alloc;
        long_flag(
            alloc,
            "save",
            "Replace FILE by a snapshot of what is found, or make it"
        ),
        long_flag(
            alloc,
            "quick",
            "Compare names and types alone, and list only directories that changed"
        ),
        long_flag(
            alloc,
            "rows",
            "Write a row for each entry in FILE, and compare nothing: path, type, length, time, number"
        ),
        flag(
            alloc,
            "long",
            'l',
            "Write behind each ~ what differs: type, length, time, number"
        ),
        flag(
            alloc,
            "print0",
            '0',
            "Write a zero byte behind each line, in place of a line feed"
        ),
        long_flag(alloc, "json", "Write a JSON object for each difference"),
        flag(alloc, "quiet", 'q', "Write no lines"),
        threads_option(alloc),
    ]?)
}

/// Returns the option for the greatest depth, which isn't 0: that of the root.
fn depth_option<'a>(alloc: Global) -> Arg<'a>
    ensures rule { rule_of result ≡ depth_rule }
    ensures local { result.global ≡ false }
{
    number(
        alloc,
        "max-depth",
        "Leave out what lies more than N levels below the root",
    )
    .short('d')
    .value_parser(clap::value_parser!(usize).range(1..))
}

/// Returns the options for what of a tree is compared.
fn choice_options<'a>(alloc: Global) -> Result<Vec<Arg<'a>>, AllocError>
    ensures { IfOk result (λ options. HaveRules options.items choice_rules) }
{
    Ok(vec![in alloc;
        long_flag(
            alloc,
            "exclude-hidden",
            "Leave out names that start with a dot"
        ),
        flag(
            alloc,
            "one-file-system",
            'x',
            "Leave out what is on other file systems"
        ),
        depth_option(alloc),
        listed(
            alloc,
            "exclude",
            'E',
            "LINE",
            "Leave out what this line of an ignore file names"
        ),
        long_flag(alloc, "ignore", "Leave out what ignore files name"),
    ]?)
}

fn named<'a>(alloc: Global) -> Command<'a>
    ensures { app_of result ≡ named_app }
{
    Command::new(alloc, "since").version(VERSION).about(
        "Prints what was added, removed or changed since a snapshot",
    )
}

pub(crate) fn command<'a>(alloc: Global) -> Result<Command<'a>, AllocError>
    ensures { IfOk result (λ all. app_of all ≡ since_app) }
{
    let places = places(alloc)?;
    let options = options(alloc)?;
    let choice = choice_options(alloc)?;
    named(alloc).args(places)?.args(options)?.args(choice)
}
