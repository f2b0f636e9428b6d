//! What is compared of a file.
ghost use Rattle.std.specs.Prelude.{◌≡◌, option_and_then};
ghost use Rattle.jwalk_model.specs.Metadata.{details_of};
ghost use Rattle.since_parts.specs.Facts.{compared, kept_of, known};

use jwalk_changes::Facts as Compared;
use jwalk_model::file_type::FileType;
use jwalk_model::metadata::Metadata;
use jwalk_snapshot::Facts;

/// Returns what a snapshot keeps of a file, if all of it is known.
pub fn kept_of(seen: &Metadata) -> Option<Facts>
    ensures { result ≡ kept_of seen.now }
{
    let details = seen.details()?;
    Some(Facts {
        len: seen.len(),
        modified: details.modified,
        inode: details.identity.inode,
    })
}

/// Returns what is compared of a file, with its number if that counts.
pub fn compared(file_type: FileType, facts: Option<Facts>, numbers: bool) -> Compared
    ensures { result ≡ compared numbers file_type facts }
{
    match facts {
        Some(facts) => known(file_type, facts, numbers),
        None => Compared {
            file_type,
            len: None,
            modified: None,
            inode: None,
        },
    }
}

fn known(file_type: FileType, facts: Facts, numbers: bool) -> Compared
    ensures { result ≡ known numbers file_type facts }
{
    Compared {
        file_type,
        len: Some(facts.len),
        modified: Some(facts.modified),
        inode: if numbers { Some(facts.inode) } else { None },
    }
}
