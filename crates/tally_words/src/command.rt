//! The command line.
ghost use Rattle.std.specs.Prelude.{◌≡◌, ◌∷◌, [], false, IfOk};
ghost use Rattle.clap.specs.Words.{app_of, rule_of};
ghost use Rattle.program_parts.specs.Rules.{root_rule, with_rules, HaveRules};
ghost use Rattle.tally_words.specs.Command.{named_app, shown_rules, form_rules, unit_rules, counted_rules, walked_rules, help_rule, tally_app};

use clap::{Arg, ArgAction, Command};
use program_parts::options::{
    flag, listed, long_flag, number, root_option, threads_option, valued,
};
use program_parts::version::VERSION;
use std::alloc::{AllocError, Global};

fn shown_options<'a>(alloc: Global) -> Result<Vec<Arg<'a>>, AllocError>
    ensures { IfOk result (λ options. HaveRules options.items shown_rules) }
{
    Ok(vec![in alloc;
        number(
            alloc,
            "max-depth",
            "Write what lies up to N levels below a root [default: 1, and any for lines and JSON]"
        )
        .short('d'),
        flag(
            alloc,
            "all",
            'a',
            "Write files too, and not only directories"
        ),
        number(
            alloc,
            "largest",
            "Write the N largest of each directory, and the rest as one line"
        )
        .short('n'),
        flag(
            alloc,
            "summarize",
            's',
            "Write the total of each root alone"
        ),
        flag(alloc, "total", 'c', "Write the sum of all roots last"),
        valued(
            alloc,
            "threshold",
            "SIZE",
            "Leave out what is smaller than SIZE, or with a - in front of it what is larger"
        )
        .short('t'),
    ]?)
}

fn form_options<'a>(alloc: Global) -> Result<Vec<Arg<'a>>, AllocError>
    ensures { IfOk result (λ options. HaveRules options.items form_rules) }
{
    Ok(vec![in alloc;
        long_flag(
            alloc,
            "plain",
            "Write lines of a size and a path, children before parents"
        ),
        flag(
            alloc,
            "print0",
            '0',
            "Write such lines with a zero byte behind each, in place of a line feed"
        ),
        long_flag(alloc, "json", "Write one JSON document"),
    ]?)
}

fn unit_options<'a>(alloc: Global) -> Result<Vec<Arg<'a>>, AllocError>
    ensures { IfOk result (λ options. HaveRules options.items unit_rules) }
{
    Ok(vec![in alloc;
        flag(
            alloc,
            "human-readable",
            'h',
            "Write sizes in the binary unit that suits each [default, but for lines]"
        ),
        long_flag(
            alloc,
            "si",
            "Write sizes in the decimal unit that suits each"
        ),
        flag(
            alloc,
            "kibibytes",
            'k',
            "Write sizes in units of 1,024 bytes, rounded up [default for lines]"
        ),
        flag(
            alloc,
            "mebibytes",
            'm',
            "Write sizes in units of 1,048,576 bytes, rounded up"
        ),
        flag(alloc, "bytes", 'b', "Write sizes in bytes"),
    ]?)
}

fn counted_options<'a>(alloc: Global) -> Result<Vec<Arg<'a>>, AllocError>
    ensures { IfOk result (λ options. HaveRules options.items counted_rules) }
{
    Ok(vec![in alloc;
        long_flag(
            alloc,
            "apparent",
            "Count lengths, and not what is allocated"
        ),
        flag(alloc, "count-links", 'l', "Count each name of a file"),
        long_flag(
            alloc,
            "exclude-hidden",
            "Leave out names that start with a dot"
        ),
        listed(
            alloc,
            "exclude",
            'E',
            "LINE",
            "Leave out what this line of an ignore file names"
        ),
        listed(
            alloc,
            "exclude-from",
            'X',
            "FILE",
            "Leave out what the lines of this file name"
        ),
        long_flag(alloc, "ignore", "Leave out what ignore files name"),
    ]?)
}

/// Returns the option for help. It has no letter: `-h` is a unit.
fn help_option<'a>(alloc: Global) -> Arg<'a>
    ensures rule { rule_of result ≡ help_rule }
    ensures local { result.global ≡ false }
{
    Arg::new(alloc, "help")
        .long("help")
        .action(ArgAction::Help)
        .help("Print help")
}

fn walked_options<'a>(alloc: Global) -> Result<Vec<Arg<'a>>, AllocError>
    ensures { IfOk result (λ options. HaveRules options.items walked_rules) }
{
    Ok(vec![in alloc;
        flag(
            alloc,
            "one-file-system",
            'x',
            "Leave out what is on other file systems"
        ),
        flag(alloc, "follow", 'L', "Follow links"),
        long_flag(
            alloc,
            "sort",
            "Read the entries of a directory in the order of their names"
        ),
        threads_option(alloc),
        help_option(alloc),
    ]?)
}

fn named<'a>(alloc: Global) -> Result<Command<'a>, AllocError>
    ensures { IfOk result (λ all. app_of all ≡ with_rules named_app (root_rule ∷ [])) }
{
    Command::new(alloc, "tally")
        .version(VERSION)
        .about("Prints how much is below each directory")
        .disable_help_flag(true)
        .arg(root_option(alloc, "What to count [default: the folder that it runs in]"))
}

pub(crate) fn command<'a>(alloc: Global) -> Result<Command<'a>, AllocError>
    ensures { IfOk result (λ all. app_of all ≡ tally_app) }
{
    let shown = shown_options(alloc)?;
    let form = form_options(alloc)?;
    let units = unit_options(alloc)?;
    let counted = counted_options(alloc)?;
    let walked = walked_options(alloc)?;
    named(alloc)?
        .args(shown)?
        .args(form)?
        .args(units)?
        .args(counted)?
        .args(walked)
}
