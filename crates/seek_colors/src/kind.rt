//! The kinds of entries that have a color of their own.

/// What a color is of.
#[derive(Clone, Copy, Debug, PartialEq, Eq)]
pub enum Kind {
    /// A directory, and its mode, or 0 if that isn't known.
    Directory(u32),
    /// A link that leads somewhere.
    Link,
    /// A link that leads nowhere.
    BrokenLink,
    /// A regular file, and its mode, or 0 if that isn't known.
    File(u32),
    /// A pipe.
    Pipe,
    /// A socket.
    Socket,
    /// A block device.
    BlockDevice,
    /// A character device.
    CharDevice,
    /// Anything else.
    Other,
}
