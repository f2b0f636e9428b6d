//! Tells what was added, removed or changed: `since [OPTIONS] FILE [ROOT]` compares what is below a root with a snapshot.
#![tactic(auto)]

use jwalk::crew::threads_for;
use jwalk::file_system::{Patient, RealFs};
use jwalk_ignore_rules::real_texts::RealTexts;
use jwalk_indexed_fs::recording_fs::now;
use jwalk_model::metadata::Moment;
use program_parts::errors::Errors;
use program_parts::masked_lines::MaskedLines;
use since_run::run::Since;
use since_run::screen::Screen;
use since_run::store::RealStore;
use std::io::IsTerminal;
use std::process::ExitCode;
use std::{env, io};

/// How many characters a line of help has where `COLUMNS` doesn't say.
const WIDTH: usize = 80;

/// The disk, where a directory is opened again after a moment if no descriptor was left; the files on it; and what
/// snapshots are written to.
type Disk = (
    Patient<RealFs, HostRuntime>,
    RealTexts,
    RealStore<HostRuntime>,
);

/// Returns the words of the call, what lines are written to, and the disk.
fn call_of(rt: &HostRuntime) -> io::Result<(Vec<String>, Screen, Disk)> {
    let words = env::args(rt)?.collect(rt.alloc())?;
    let width = match env::var(rt, "COLUMNS") {
        Ok(columns) => columns.parse().unwrap_or(WIDTH),
        Err(_) => WIDTH,
    };
    let screen = Screen {
        is_terminal: rt.stdout().is_terminal(),
        width,
    };
    let disk = Patient::new(RealFs::new(rt.clone()?), rt.clone()?);
    let texts = RealTexts::new(rt.clone()?);
    let store = RealStore::new(rt.clone()?, rt.alloc());
    Ok((words, screen, (disk, texts, store)))
}

/// Returns the time now. If the clock can't be read, it is the beginning of 1970, before which no directory changed.
fn start_of(rt: &HostRuntime) -> Moment {
    match now(rt) {
        Ok(start) => start,
        Err(_) => Moment {
            seconds: 0,
            nanoseconds: 0,
        },
    }
}

fn main(rt: HostRuntime) -> ExitCode {
    let start = start_of(&rt);
    let mut err = Errors::new(MaskedLines {
        err: rt.stderr(),
        masks: rt.stderr().is_terminal(),
    });
    let status = match call_of(&rt) {
        Ok((words, screen, (disk, texts, mut store))) => Since {
            rt: &rt,
            alloc: rt.alloc(),
            cores: threads_for(&rt, 0),
            disk,
            texts,
            start,
            screen,
        }
        .run(&mut store, words.as_slice(), &mut io::writer(&rt), &mut err),
        Err(error) => {
            err.tell("since", format_args!("words that can't be read: {error}"));
            2
        }
    };
    ExitCode::from(status)
}
