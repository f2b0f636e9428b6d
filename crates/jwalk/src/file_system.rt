//! What a walk reads from: the file system as a trait, its types, the disk, and a tree in memory.
pub use jwalk_fs::fault::Fault;
pub use jwalk_fs::file_system::FileSystem;
pub use jwalk_fs::listed::Listed;
pub use jwalk_fs::sink::Sink;
pub use jwalk_memory_fs::build_error::BuildError;
pub use jwalk_memory_fs::memory_fs::MemoryFs;
pub use jwalk_model::file_type::FileType;
pub use jwalk_model::metadata::{Details, Identity, Metadata, Moment};
pub use jwalk_model::seen::Seen;
pub use jwalk_real_fs::disk_calls::DiskCalls;
pub use jwalk_real_fs::patient::Patient;
pub use jwalk_real_fs::real_fs::RealFs;
