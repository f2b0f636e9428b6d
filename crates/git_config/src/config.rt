//! What git's configuration says.
ghost use Rattle.std.specs.Prelude.{◌≡◌, ◌<◌, ◌+◌, ◌^◌, None, IfOk, OnOk, option_map};
ghost use Rattle.git_config.specs.Config.{config_in, full_name, is_return, line_after, without_mark};
ghost use Rattle.git_config.specs.Readings.{config_value};

use crate::place::{Place, Step};
use std::alloc::{AllocError, Global};

/// A setting.
#[derive(Drop)]
pub struct Setting {
    /// Its name behind that of its section, with a dot between them, in lower case but for what is in quotes.
    pub name: Vec<u8>,
    /// Its value, if it has a `=`.
    pub value: Option<Vec<u8>>,
    /// The line on which it ends.
    pub line: usize,
}

/// A configuration.
#[derive(Drop)]
pub struct Config {
    /// Its settings, up to a bad line.
    pub settings: Vec<Setting>,
    /// That line, if there is one.
    pub bad: Option<usize>,
}

/// What is read of a configuration, up to a byte.
#[derive(Drop)]
struct Reading {
    config: Config,
    /// The section that the byte is in.
    section: Vec<u8>,
    /// The line that it is in.
    line: usize,
}

/// Returns a file's bytes without the byte order mark that they begin with.
fn without_mark(bytes: &[u8]) -> &[u8]
    ensures { result.now ≡ without_mark bytes.now }
{
    match bytes {
        [239, 187, 191, behind @ ..] => behind,
        _ => bytes,
    }
}

/// Returns the name of a setting behind that of its section.
fn full_name(alloc: Global, section: &[u8], key: Vec<u8>) -> Result<Vec<u8>, AllocError>
    ensures { IfOk result (λ name. name.items ≡ full_name section.now key.items) }
{
    if section.is_empty() {
        return Ok(key);
    }
    let mut name = Vec::from_slice(alloc, section)?;
    name.push(b'.')?;
    name.extend_from_slice(&key)?;
    Ok(name)
}

/// Returns whether a byte is a return in front of the end of its line.
fn is_return(byte: u8, rest: &[u8]) -> bool
    ensures { result ≡ is_return byte rest.now }
{
    match rest {
        [next, ..] => byte == b'\r' && *next == b'\n',
        [] => false,
    }
}

fn line_after(line: usize, byte: u8) -> usize
    requires { line + 1 < 2 ^ 64 }
    ensures { result ≡ line_after line byte }
{
    if byte == b'\n' { line + 1 } else { line }
}

impl Reading {
    ghost use Rattle.git_config.specs.Places.{place_of, step_of};
    ghost use Rattle.git_config.specs.Readings.{followed, reading_value, unread, with_setting};

    fn new(alloc: Global) -> Self
        ensures { reading_value result ≡ unread }
    {
        Reading {
            config: Config {
                settings: Vec::new(alloc),
                bad: None,
            },
            section: Vec::new(alloc),
            line: 1,
        }
    }

    /// Adds a setting.
    fn add(&mut self, alloc: Global, key: Vec<u8>, value: Option<Vec<u8>>) -> Result<(), AllocError>
        ensures { OnOk result (reading_value self.new ≡ with_setting key.items (option_map (λ text. text.items) value) (reading_value self.old)) }
    {
        let name = full_name(alloc, &self.section, key)?;
        self.config.settings.push(Setting {
            name,
            value,
            line: self.line,
        })?;
        Ok(())
    }

    /// Does what a step says, and returns the place behind it.
    fn follow(&mut self, alloc: Global, step: Step) -> Result<Place, AllocError>
        requires bad { self.old.config.bad ≡ None }
        requires line { self.old.line + 1 < 2 ^ 64 }
        ensures { IfOk result (λ place. (reading_value self.new, place_of place) ≡ followed (step_of step) (reading_value self.old)) }
    {
        match step {
            Step::Goes(place) => return Ok(place),
            Step::Enters(name) => self.section = name,
            Step::Sets(key, value) => self.add(alloc, key, value)?,
            Step::Fails => self.config.bad = Some(self.line),
            Step::FailsNext => self.config.bad = Some(self.line + 1),
        }
        Ok(Place::Blank)
    }
}

/// Returns what the bytes of a configuration say.
///
/// # Errors
///
/// If memory runs out.
pub fn config_in(alloc: Global, bytes: &[u8]) -> Result<Config, AllocError>
    ensures { IfOk result (λ config. config_value config ≡ config_in bytes.now) }
{
    let mut reading = Reading::new(alloc);
    let mut place = Place::Blank;
    let mut rest = without_mark(bytes);
    'bytes: while let Some((byte, behind)) = rest.split_first() {
        if !is_return(*byte, behind) {
            let step = place.after(alloc, *byte)?;
            place = reading.follow(alloc, step)?;
            if reading.config.bad.is_some() {
                return Ok(reading.config);
            }
            reading.line = line_after(reading.line, *byte);
        }
        rest = behind;
    }
    let _ = reading.follow(alloc, place.at_end())?;
    Ok(reading.config)
}
