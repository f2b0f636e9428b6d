//! Readings of single directories, and the callbacks that are called with their lists.
pub use jwalk_callbacks::both::Both;
pub use jwalk_callbacks::by_fn::ByFn;
pub use jwalk_callbacks::calls::{Calls, Closure};
pub use jwalk_callbacks::filter_entry::FilterEntry;
pub use jwalk_callbacks::skip_names::SkipNames;
pub use jwalk_job::ancestors::Ancestors;
pub use jwalk_job::item::{Item, List};
pub use jwalk_job::job::Job;
pub use jwalk_job::mode::Mode;
pub use jwalk_job::options::Options;
pub use jwalk_job::process_read_dir::{NoProcess, ProcessReadDir};
pub use jwalk_job::read_dir::ReadDir;
pub use jwalk_job::read_dir_spec::ReadDirSpec;
pub use jwalk_sort_by::SortBy;
pub use jwalk_sort_by::compares::{ByKey, ByOrder, Compares};
