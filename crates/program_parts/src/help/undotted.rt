//! A text of help without dots behind options.
ghost use Rattle.std.specs.Prelude.{◌≡◌, ◌<◌, ◌++◌, length, IfOk};
ghost use Rattle.program_parts.specs.Help.{are_dots, undotted, undotted_behind};

use std::alloc::{AllocError, Global};

fn are_dots(last: u8, first: u8, second: u8, third: u8) -> bool
    ensures { result ≡ are_dots last first second third }
{
    last != b']' && first == b'.' && second == b'.' && third == b'.'
}

#[tactic(auto, using(crate::proofs::HelpFacts::dots_pushed, crate::proofs::HelpFacts::other_pushed))]
/// Appends three spaces for three dots, or a byte, or a text that is too short for dots. Returns the last byte, and what
/// is behind it.
fn push_next<'t>(last: u8, rest: &'t [u8], out: &mut Vec<u8>) -> Result<(u8, &'t [u8]), AllocError>
    ensures pushed { IfOk result (λ it. out.new.items ++ undotted_behind it.0 it.1.now
        ≡ out.old.items ++ undotted_behind last rest.entry.now) }
    ensures fewer { IfOk result (λ it. 0 < length rest.entry.now → length it.1.now < length rest.entry.now) }
{
    let [first, second, third, behind @ ..] = rest else {
        out.extend_from_slice(rest)?;
        return Ok((last, &[]));
    };
    if are_dots(last, *first, *second, *third) {
        out.extend_from_slice(b"   ")?;
        return Ok((b' ', behind));
    }
    out.push(*first)?;
    Ok((*first, &rest[1..]))
}

/// Returns a text in which three spaces replace three dots, unless a `]` is in front of these.
pub(crate) fn undotted(alloc: Global, text: &[u8]) -> Result<Vec<u8>, AllocError>
    ensures { IfOk result (λ shown. shown.items ≡ undotted text.now) }
{
    let mut shown = Vec::with_capacity(alloc, text.len())?;
    let mut next = (0, text);
    while !next.1.is_empty() {
        next = push_next(next.0, next.1, &mut shown)?;
    }
    Ok(shown)
}
