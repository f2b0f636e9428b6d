//! The places in a configuration.
ghost use Rattle.std.specs.Prelude.{◌≡◌, ◌++◌, ◌∷◌, [], IfOk, OnOk};
ghost use Rattle.git_config.specs.Config.{after_blank, after_comment, after_escape, after_gap, after_header, after_key, after_key_gap, after_plain, after_quoted, after_section, after_subsection, after_subsection_escape, after_text, after_value, after_value_comment, escaped, is_comment, is_in_name, is_space, value_ended, value_or_fault};
ghost use Rattle.git_config.specs.Places.{step_of, written_of};

use std::alloc::{AllocError, Global};

/// What is read of a setting's value.
#[derive(Drop)]
pub(crate) struct Written {
    /// The name of the setting.
    name: Vec<u8>,
    /// The value is between quotes.
    quoted: bool,
    text: Vec<u8>,
    /// The spaces behind the text, which count if more of it follows.
    spaces: Vec<u8>,
}

/// Where a byte of a configuration is.
#[derive(Drop)]
pub(crate) enum Place {
    /// Where a section or a setting may begin.
    Blank,
    /// In a comment.
    Comment,
    /// In the name of a section, of which this is read.
    Section(Vec<u8>),
    /// Behind a space in a section's header.
    Gap(Vec<u8>),
    /// In the quotes of a header.
    Subsection(Vec<u8>),
    /// Behind a backslash there.
    SubsectionEscape(Vec<u8>),
    /// Behind these quotes.
    Header(Vec<u8>),
    /// In the name of a setting.
    Key(Vec<u8>),
    /// Behind a space behind that.
    KeyGap(Vec<u8>),
    /// In the value of a setting.
    Value(Written),
    /// Behind a backslash there.
    Escape(Written),
    /// In a comment behind the value.
    ValueComment(Written),
}

/// What a byte makes of the place that it is at.
#[derive(Drop)]
pub(crate) enum Step {
    /// This place is behind it.
    Goes(Place),
    /// The header of this section ends.
    Enters(Vec<u8>),
    /// A setting of this name ends, with its value, if it has one.
    Sets(Vec<u8>, Option<Vec<u8>>),
    /// It may not be there.
    Fails,
    /// It may not be there, which is told of the next line.
    FailsNext,
}

fn is_space(byte: u8) -> bool
    ensures { result ≡ is_space byte }
{
    matches!(byte, b' ' | b'\t' | b'\n' | b'\r')
}

fn is_in_name(byte: u8) -> bool
    ensures { result ≡ is_in_name byte }
{
    byte.is_ascii_alphanumeric() || byte == b'-'
}

fn is_comment(byte: u8) -> bool
    ensures { result ≡ is_comment byte }
{
    matches!(byte, b'#' | b';')
}

/// Returns a text with one more byte.
fn with_byte(mut text: Vec<u8>, byte: u8) -> Result<Vec<u8>, AllocError>
    ensures { IfOk result (λ it. it.items ≡ text.items ++ byte ∷ []) }
{
    text.push(byte)?;
    Ok(text)
}

fn after_blank(alloc: Global, byte: u8) -> Result<Step, AllocError>
    ensures { IfOk result (λ step. step_of step ≡ after_blank byte) }
{
    if is_space(byte) {
        return Ok(Step::Goes(Place::Blank));
    }
    if is_comment(byte) {
        return Ok(Step::Goes(Place::Comment));
    }
    match byte {
        b'[' => Ok(Step::Goes(Place::Section(Vec::new(alloc)))),
        _ if byte.is_ascii_alphabetic() => {
            let name = with_byte(Vec::new(alloc), byte.to_ascii_lowercase())?;
            Ok(Step::Goes(Place::Key(name)))
        }
        _ => Ok(Step::Fails),
    }
}

fn after_comment(byte: u8) -> Step
    ensures { step_of result ≡ after_comment byte }
{
    if byte == b'\n' {
        Step::Goes(Place::Blank)
    } else {
        Step::Goes(Place::Comment)
    }
}

fn after_section(name: Vec<u8>, byte: u8) -> Result<Step, AllocError>
    ensures { IfOk result (λ step. step_of step ≡ after_section name.items byte) }
{
    if byte == b']' && !name.is_empty() {
        return Ok(Step::Enters(name));
    }
    if is_in_name(byte) || byte == b'.' {
        return Ok(Step::Goes(Place::Section(with_byte(name, byte.to_ascii_lowercase())?)));
    }
    if byte != b'\n' && is_space(byte) {
        return Ok(Step::Goes(Place::Gap(name)));
    }
    Ok(Step::Fails)
}

fn after_gap(name: Vec<u8>, byte: u8) -> Result<Step, AllocError>
    ensures { IfOk result (λ step. step_of step ≡ after_gap name.items byte) }
{
    if byte == b'"' {
        return Ok(Step::Goes(Place::Subsection(with_byte(name, b'.')?)));
    }
    if byte != b'\n' && is_space(byte) {
        return Ok(Step::Goes(Place::Gap(name)));
    }
    Ok(Step::Fails)
}

fn after_subsection(name: Vec<u8>, byte: u8) -> Result<Step, AllocError>
    ensures { IfOk result (λ step. step_of step ≡ after_subsection name.items byte) }
{
    match byte {
        b'\n' => Ok(Step::Fails),
        b'"' => Ok(Step::Goes(Place::Header(name))),
        b'\\' => Ok(Step::Goes(Place::SubsectionEscape(name))),
        _ => Ok(Step::Goes(Place::Subsection(with_byte(name, byte)?))),
    }
}

fn after_subsection_escape(name: Vec<u8>, byte: u8) -> Result<Step, AllocError>
    ensures { IfOk result (λ step. step_of step ≡ after_subsection_escape name.items byte) }
{
    if byte == b'\n' {
        return Ok(Step::Fails);
    }
    Ok(Step::Goes(Place::Subsection(with_byte(name, byte)?)))
}

fn after_header(name: Vec<u8>, byte: u8) -> Step
    ensures { step_of result ≡ after_header name.items byte }
{
    match byte {
        b']' => Step::Enters(name),
        b'\n' => Step::FailsNext,
        _ => Step::Fails,
    }
}

fn after_key_gap(alloc: Global, name: Vec<u8>, byte: u8) -> Step
    ensures { step_of result ≡ after_key_gap name.items byte }
{
    match byte {
        b'\n' => Step::Sets(name, None),
        b' ' | b'\t' => Step::Goes(Place::KeyGap(name)),
        b'=' => Step::Goes(Place::Value(Written::begun(alloc, name))),
        _ => Step::Fails,
    }
}

fn after_key(alloc: Global, name: Vec<u8>, byte: u8) -> Result<Step, AllocError>
    ensures { IfOk result (λ step. step_of step ≡ after_key name.items byte) }
{
    if is_in_name(byte) {
        let longer = with_byte(name, byte.to_ascii_lowercase())?;
        return Ok(Step::Goes(Place::Key(longer)));
    }
    Ok(after_key_gap(alloc, name, byte))
}

/// Returns the byte that one behind a backslash stands for, if it may be there.
fn escaped(byte: u8) -> Option<u8>
    ensures { result ≡ escaped byte }
{
    match byte {
        b't' => Some(b'\t'),
        b'b' => Some(8),
        b'n' => Some(b'\n'),
        b'\\' | b'"' => Some(byte),
        _ => None,
    }
}

impl Written {
    ghost use Rattle.git_config.specs.Config.{begun, with_gap, with_quote, with_spaces, with_text};

    fn begun(alloc: Global, name: Vec<u8>) -> Self
        ensures { written_of result ≡ begun name.items }
    {
        Written {
            name,
            quoted: false,
            text: Vec::new(alloc),
            spaces: Vec::new(alloc),
        }
    }

    fn with_spaces(mut self) -> Result<Self, AllocError>
        ensures { IfOk result (λ it. written_of it ≡ with_spaces (written_of self)) }
    {
        self.text.append(&mut self.spaces)?;
        Ok(self)
    }

    /// Adds a byte of the value, and the spaces in front of it.
    fn with_text(self, byte: u8) -> Result<Self, AllocError>
        ensures { IfOk result (λ it. written_of it ≡ with_text byte (written_of self)) }
    {
        let mut written = self.with_spaces()?;
        written.text.push(byte)?;
        Ok(written)
    }

    /// Adds a space, which doesn't count in front of the value.
    fn with_gap(mut self, byte: u8) -> Result<Self, AllocError>
        ensures { IfOk result (λ it. written_of it ≡ with_gap byte (written_of self)) }
    {
        if !self.text.is_empty() {
            self.spaces.push(byte)?;
        }
        Ok(self)
    }

    /// Begins or ends a part in quotes.
    fn with_quote(self) -> Result<Self, AllocError>
        ensures { IfOk result (λ it. written_of it ≡ with_quote (written_of self)) }
    {
        let mut written = self.with_spaces()?;
        written.quoted = !written.quoted;
        Ok(written)
    }
}

fn value_ended(written: Written) -> Step
    ensures { step_of result ≡ value_ended (written_of written) }
{
    let Written {
        name,
        quoted: _,
        text,
        spaces: _,
    } = written;
    Step::Sets(name, Some(text))
}

fn after_text(written: Written, byte: u8) -> Result<Step, AllocError>
    ensures { IfOk result (λ step. step_of step ≡ after_text (written_of written) byte) }
{
    match byte {
        b'\\' => Ok(Step::Goes(Place::Escape(written.with_spaces()?))),
        b'"' => Ok(Step::Goes(Place::Value(written.with_quote()?))),
        _ => Ok(Step::Goes(Place::Value(written.with_text(byte)?))),
    }
}

fn after_quoted(written: Written, byte: u8) -> Result<Step, AllocError>
    ensures { IfOk result (λ step. step_of step ≡ after_quoted (written_of written) byte) }
{
    if byte == b'\n' {
        return Ok(Step::Fails);
    }
    after_text(written, byte)
}

fn after_plain(written: Written, byte: u8) -> Result<Step, AllocError>
    ensures { IfOk result (λ step. step_of step ≡ after_plain (written_of written) byte) }
{
    if byte == b'\n' {
        return Ok(value_ended(written));
    }
    if is_space(byte) {
        return Ok(Step::Goes(Place::Value(written.with_gap(byte)?)));
    }
    if is_comment(byte) {
        return Ok(Step::Goes(Place::ValueComment(written)));
    }
    after_text(written, byte)
}

fn after_value(written: Written, byte: u8) -> Result<Step, AllocError>
    ensures { IfOk result (λ step. step_of step ≡ after_value (written_of written) byte) }
{
    if written.quoted {
        after_quoted(written, byte)
    } else {
        after_plain(written, byte)
    }
}

fn after_escape(written: Written, byte: u8) -> Result<Step, AllocError>
    ensures { IfOk result (λ step. step_of step ≡ after_escape (written_of written) byte) }
{
    if byte == b'\n' {
        return Ok(Step::Goes(Place::Value(written)));
    }
    match escaped(byte) {
        Some(meant) => Ok(Step::Goes(Place::Value(written.with_text(meant)?))),
        None => Ok(Step::Fails),
    }
}

fn after_value_comment(written: Written, byte: u8) -> Step
    ensures { step_of result ≡ after_value_comment (written_of written) byte }
{
    if byte == b'\n' {
        value_ended(written)
    } else {
        Step::Goes(Place::ValueComment(written))
    }
}

fn value_or_fault(fault: Step, written: Written) -> Step
    ensures { step_of result ≡ value_or_fault (step_of fault) (written_of written) }
{
    if written.quoted {
        fault
    } else {
        value_ended(written)
    }
}

impl Place {
    ghost use Rattle.git_config.specs.Config.{after, at_end};
    ghost use Rattle.git_config.specs.Places.{place_of};

    /// Returns what a byte makes of the place that it is at.
    pub(crate) fn after(self, alloc: Global, byte: u8) -> Result<Step, AllocError>
        ensures { IfOk result (λ step. step_of step ≡ after (place_of self) byte) }
    {
        match self {
            Place::Blank => after_blank(alloc, byte),
            Place::Comment => Ok(after_comment(byte)),
            Place::Section(name) => after_section(name, byte),
            Place::Gap(name) => after_gap(name, byte),
            Place::Subsection(name) => after_subsection(name, byte),
            Place::SubsectionEscape(name) => after_subsection_escape(name, byte),
            Place::Header(name) => Ok(after_header(name, byte)),
            Place::Key(name) => after_key(alloc, name, byte),
            Place::KeyGap(name) => Ok(after_key_gap(alloc, name, byte)),
            Place::Value(written) => after_value(written, byte),
            Place::Escape(written) => after_escape(written, byte),
            Place::ValueComment(written) => Ok(after_value_comment(written, byte)),
        }
    }

    /// Returns what the end of a file makes of the place there.
    pub(crate) fn at_end(self) -> Step
        ensures { step_of result ≡ at_end (place_of self) }
    {
        match self {
            Place::Blank | Place::Comment => Step::Goes(Place::Blank),
            Place::Section(_) | Place::Header(_) => Step::FailsNext,
            Place::Gap(_) | Place::Subsection(_) | Place::SubsectionEscape(_) => Step::Fails,
            Place::Key(name) | Place::KeyGap(name) => Step::Sets(name, None),
            Place::Value(written) => value_or_fault(Step::Fails, written),
            Place::Escape(written) => value_or_fault(Step::FailsNext, written),
            Place::ValueComment(written) => value_ended(written),
        }
    }
}
