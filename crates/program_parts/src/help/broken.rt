//! A text of help whose lines are broken.
ghost use Rattle.std.specs.Prelude.{◌≡◌, ◌<◌, ◌≤◌, ◌++◌, length, replicate, IfOk, OnOk};
ghost use Rattle.program_parts.specs.Help.{broken, broken_from, indent_of, is_break, is_of_word, word_len};

use std::alloc::{AllocError, Global};

/// A place in a line.
#[derive(Clone, Copy)]
struct Place {
    /// The column at which the explanations of the line begin, or 0.
    indent: usize,
    /// The column of the place.
    column: usize,
}

fn is_of_word(byte: u8) -> bool
    ensures { result ≡ is_of_word byte }
{
    byte != b' ' && byte != b'\n'
}

fn word_len(text: &[u8]) -> usize
    ensures len { result ≡ word_len text.now }
    ensures short { result ≤ length text.now }
{
    let mut count = 0;
    while count < text.len() && is_of_word(text[count]) {
        count += 1;
    }
    count
}

#[tactic(auto, using(crate::proofs::HelpFacts::none_further))]
fn indent_of(text: &[u8]) -> usize
    ensures { result ≡ indent_of text.now }
{
    let mut found = 0;
    let mut column = 0;
    let mut rest = text;
    while let [first, second, ..] = rest {
        if *first == b'\n' {
            return found;
        }
        if *first == b' ' && *second == b' ' {
            found = column + 2;
        }
        column += 1;
        rest = &rest[1..];
    }
    found
}

impl Place {
    /// Returns whether a space here, before this text, ends a line of this width.
    fn is_break(self, width: usize, behind: &[u8]) -> bool
        ensures { result ≡ is_break width self.indent self.column behind.now }
    {
        self.indent < self.column && width.saturating_sub(self.column) < word_len(behind) + 1
    }
}

fn push_spaces(count: usize, out: &mut Vec<u8>) -> Result<(), AllocError>
    ensures { OnOk result (out.new.items ≡ out.old.items ++ replicate count 32) }
{
    for _ in 0..count {
        out.push(b' ')?;
    }
    Ok(())
}

/// Appends the next byte, or the end of a line and the indent of the next. Returns the place behind it, and the text that
/// is left.
fn push_next<'t>(
    width: usize,
    place: Place,
    rest: &'t [u8],
    out: &mut Vec<u8>,
) -> Result<(Place, &'t [u8]), AllocError>
    ensures pushed { IfOk result (λ it. out.new.items ++ broken_from width it.0.indent it.0.column it.1.now
        ≡ out.old.items ++ broken_from width place.indent place.column rest.entry.now) }
    ensures fewer { IfOk result (λ it. 0 < length rest.entry.now → length it.1.now < length rest.entry.now) }
{
    let Place { indent, column } = place;
    let [byte, behind @ ..] = rest else {
        return Ok((place, rest));
    };
    if *byte == b'\n' {
        out.push(b'\n')?;
        let indent = indent_of(behind);
        return Ok((Place { indent, column: 0 }, behind));
    }
    if *byte == b' ' && place.is_break(width, behind) {
        out.push(b'\n')?;
        push_spaces(indent, out)?;
        let column = indent;
        return Ok((Place { indent, column }, behind));
    }
    out.push(*byte)?;
    let column = column.saturating_add(1);
    Ok((Place { indent, column }, behind))
}

/// Returns a text whose lines are broken at spaces in their explanations, so that each has at most this width, or one
/// word.
pub(crate) fn broken(alloc: Global, width: usize, text: &[u8]) -> Result<Vec<u8>, AllocError>
    ensures { IfOk result (λ shown. shown.items ≡ broken width text.now) }
{
    let mut shown = Vec::with_capacity(alloc, text.len())?;
    let place = Place {
        indent: indent_of(text),
        column: 0,
    };
    let mut next = (place, text);
    while !next.1.is_empty() {
        next = push_next(width, next.0, next.1, &mut shown)?;
    }
    Ok(shown)
}
