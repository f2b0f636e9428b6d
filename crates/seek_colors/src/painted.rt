//! Texts in a color.
ghost use Rattle.std.specs.Prelude.{◌≡◌, ◌++◌, OnOk};
ghost use Rattle.std.specs.Option.{option_copied};
ghost use Rattle.jwalk_model.specs.Paths.{with_slash, starts_with_slash};
ghost use Rattle.seek_colors.specs.Painted.{end_of, start_of};

use std::alloc::{AllocError, Allocator};

/// Appends what makes the text after it colored.
pub(crate) fn push_start<A: Allocator>(
    color: Option<&str>,
    out: &mut Vec<u8, A>,
) -> Result<(), AllocError>
    ensures { OnOk result (out.new.items ≡ out.old.items ++ start_of (option_copied color.entry)) }
{
    if let Some(color) = color {
        out.extend_from_slice(b"\x1b[")?;
        out.extend_from_slice(color.as_bytes())?;
        out.push(b'm')?;
    }
    Ok(())
}

/// Appends what ends a colored text.
pub(crate) fn push_end<A: Allocator>(
    color: Option<&str>,
    out: &mut Vec<u8, A>,
) -> Result<(), AllocError>
    ensures { OnOk result (out.new.items ≡ out.old.items ++ end_of (option_copied color.entry)) }
{
    if color.is_some() {
        out.extend_from_slice(b"\x1b[0m")?;
    }
    Ok(())
}

/// Returns what `folder` lacks to end with a slash, unless it is empty.
#[tactic(auto, using(jwalk_model::proofs::PathJoins::with_slash_kept, jwalk_model::proofs::PathJoins::with_slash_added))]
pub(crate) fn separator(folder: &str) -> &'static str
    ensures { folder.now ++ result.now ≡ with_slash folder.now }
{
    match folder.as_bytes() {
        [] => "",
        [.., b'/'] => "",
        _ => "/",
    }
}

pub(crate) fn starts_with_slash(path: &str) -> bool
    ensures { result ≡ starts_with_slash path.now }
{
    matches!(path.as_bytes(), [b'/', ..])
}
