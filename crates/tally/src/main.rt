//! Counts what is below each directory: `tally [OPTIONS] [ROOT..]` prints how much of the disk is used by what.
#![tactic(auto)]

use jwalk::crew::threads_for;
use jwalk::file_system::{Patient, RealFs};
use jwalk_ignore::real_texts::RealTexts;
use program_parts::errors::Errors;
use std::io::IsTerminal;
use std::process::ExitCode;
use std::{env, io};
use tally_run::run::run;
use tally_run::screen::Screen;

/// How many characters a line has where `COLUMNS` doesn't say.
const WIDTH: usize = 80;

/// The disk, where a directory is opened again after a moment if no descriptor was left; and the files of rules on it.
type Disk = (Patient<RealFs, HostRuntime>, RealTexts);

/// Returns the words of the call, what results are written to, and the disk.
fn call_of(rt: &HostRuntime) -> io::Result<(Vec<String>, Screen, Disk)> {
    let words = env::args(rt)?.collect(rt.alloc())?;
    let width = match env::var(rt, "COLUMNS") {
        Ok(columns) => columns.parse().unwrap_or(WIDTH),
        Err(_) => WIDTH,
    };
    let screen = Screen {
        is_terminal: rt.stdout().is_terminal(),
        shows_errors: rt.stderr().is_terminal(),
        width,
    };
    let disk = Patient::new(RealFs::new(rt.clone()?), rt.clone()?);
    Ok((words, screen, (disk, RealTexts::new(rt.clone()?))))
}

fn main(rt: HostRuntime) -> ExitCode {
    let mut err = Errors::new(rt.stderr());
    let status = match call_of(&rt) {
        Ok((words, screen, (disk, texts))) => run(
            &rt,
            rt.alloc(),
            threads_for(&rt, 0),
            disk,
            texts,
            words.as_slice(),
            screen,
            &mut io::writer(&rt),
            &mut err,
        ),
        Err(error) => {
            err.tell("tally", format_args!("words that can't be read: {error}"));
            2
        }
    };
    ExitCode::from(status)
}
