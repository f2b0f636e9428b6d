//! Looks for entries by their names: `seek [OPTIONS] [PATTERN] [ROOT..]` prints the path of each, one a line.
#![tactic(auto)]

use jwalk::crew::threads_for;
use jwalk::file_system::{Patient, RealFs};
use jwalk_ignore::real_texts::RealTexts;
use program_parts::errors::Errors;
use program_parts::masked_lines::MaskedLines;
use seek_search::run::Seek;
use seek_words::screen::Screen;
use std::io::IsTerminal;
use std::process::ExitCode;
use std::{env, io};
use user_excludes::home::Home;

/// How many characters a line of help has where `COLUMNS` doesn't say.
const WIDTH: usize = 80;

/// The disk, where a directory is opened again after a moment if no descriptor was left; and the files of rules on it.
type Disk = (Patient<RealFs, HostRuntime>, RealTexts);

/// Returns the value of a variable, or the empty text if it isn't set or isn't UTF-8.
fn variable(rt: &HostRuntime, name: &str) -> String {
    match env::var(rt, name) {
        Ok(value) => value,
        Err(_) => String::new(rt.alloc()),
    }
}

/// Returns the words of the call, and the disk.
fn call_of(rt: &HostRuntime) -> io::Result<(Vec<String>, Disk)> {
    let words = env::args(rt)?.collect(rt.alloc())?;
    let disk = Patient::new(RealFs::new(rt.clone()?), rt.clone()?);
    Ok((words, (disk, RealTexts::new(rt.clone()?))))
}

fn main(rt: HostRuntime) -> ExitCode {
    let mut err = Errors::new(MaskedLines {
        err: rt.stderr(),
        masks: rt.stderr().is_terminal(),
    });
    let (no_color, ls_colors) = (variable(&rt, "NO_COLOR"), variable(&rt, "LS_COLORS"));
    let columns = variable(&rt, "COLUMNS");
    let screen = Screen {
        is_terminal: rt.stdout().is_terminal(),
        no_color: !no_color.is_empty(),
        ls_colors: ls_colors.as_str(),
        columns: Some(columns.as_str().parse().unwrap_or(WIDTH)),
    };
    let (home, config) = (variable(&rt, "HOME"), variable(&rt, "XDG_CONFIG_HOME"));
    let status = match call_of(&rt) {
        Ok((words, (disk, texts))) => Seek {
            rt: &rt,
            clock: &rt,
            cores: threads_for(&rt, 0),
            alloc: rt.alloc(),
            disk,
            texts,
            home: Home {
                home: home.as_str(),
                config: config.as_str(),
            },
            screen,
        }
        .run(words.as_slice(), &mut io::writer(&rt), &mut err),
        Err(error) => {
            err.tell("seek", format_args!("words that can't be read: {error}"));
            2
        }
    };
    ExitCode::from(status)
}
