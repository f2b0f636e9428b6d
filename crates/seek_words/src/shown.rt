//! An entry that is shown to a filter, or printed.

use jwalk_model::file_type::FileType;
use jwalk_model::metadata::Metadata;

/// An entry that is shown to a filter, or printed.
#[derive(Clone, Copy)]
pub struct Shown<'e> {
    /// Its type.
    pub file_type: FileType,
    /// Its metadata, if that is known.
    pub seen: Option<&'e Metadata>,
    /// The path of its folder.
    pub folder: &'e str,
    /// Its name.
    pub name: &'e str,
}
