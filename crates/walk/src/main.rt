//! Walks the disk and prints one line for each answer:
//! `walk [--tree] [--sort] [--hidden] [--follow] [--usage] [--min N] [--max N] [--batch N | --crew N] ROOT`. With
//! `--tree` it walks the tree that the lines on standard input describe. With `--usage` it prints one line of totals.
#![tactic(auto)]

use jwalk::file_system::{Patient, RealFs};
use program_parts::errors::Errors;
use std::io::ErrorKind;
use std::process::ExitCode;
use std::{env, io};
use walk_run::run::run;
use walk_text::failure::Failure;

/// Returns the words after the program's name. Words that aren't text are bad ones.
fn words_of(rt: &HostRuntime) -> Result<Vec<String>, Failure> {
    let words = match env::args(rt) {
        Ok(words) => words,
        Err(err) if err.kind() == ErrorKind::OutOfMemory => return Err(Failure::Memory),
        Err(_) => return Err(Failure::BadWords),
    };
    Ok(words.skip(1).collect(rt.alloc())?)
}

/// The disk, where a directory is opened again after a moment if no descriptor was left.
type Disk = Patient<RealFs, HostRuntime>;

fn call_of(rt: &HostRuntime) -> Result<(Vec<String>, Disk), Failure> {
    // begin patient
    let disk = Patient::new(RealFs::new(rt.clone()?), rt.clone()?);
    // end patient
    Ok((words_of(rt)?, disk))
}

fn main(rt: HostRuntime) -> ExitCode {
    let mut err = Errors::new(rt.stderr());
    let status = match call_of(&rt) {
        Ok((words, disk)) => run(
            &rt,
            rt.alloc(),
            disk,
            words.as_slice(),
            &mut rt.reader(),
            &mut io::writer(&rt),
            &mut err,
        ),
        Err(failure) => failure.report(&mut err),
    };
    ExitCode::from(status)
}
