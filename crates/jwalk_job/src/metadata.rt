//! What a file system knows of a path.
ghost use Rattle.jwalk_model.specs.FileSystem.{metadata_at};
ghost use Rattle.jwalk_fs.specs.Views.{AnswersValue};

use jwalk_fs::fault::Fault;
use jwalk_fs::file_system::FileSystem;
use jwalk_model::metadata::Metadata;

pub(crate) fn metadata_at<S: FileSystem>(
    fs: &S,
    path: &str,
    through_link: bool,
) -> Result<Metadata, Fault>
    ensures { S.IsFixed fs.now
        → AnswersValue (λ m. m) result (metadata_at (S.functions fs.now) through_link path.now) }
{
    if through_link {
        fs.metadata(path)
    } else {
        fs.symlink_metadata(path)
    }
}
