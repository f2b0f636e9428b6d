//! Listings that are given to a sink.
use jwalk_fs::fault::Fault;
use jwalk_fs::file_system::FileSystem;
use jwalk_fs::sink::Sink;
use jwalk_model::file_type::FileType;
use jwalk_model::metadata::Metadata;
use jwalk_model::seen::Seen;
use std::alloc::{AllocError, Global};
use std::io;
use std::io::ErrorKind;
use std::test::Fail;
use test_fixtures::listed_directory::{Item, ListedDirectory};
use test_fixtures::trees::{Step, tree};

/// A sink that notes each item as its name and its type, with the length if it is given metadata. It fails once it has
/// as many items as it may have.
#[derive(Drop)]
struct Noted {
    text: String,
    /// The number of items that it still takes.
    most: usize,
}

impl Noted {
    /// Counts an item.
    fn count(&mut self) -> Result<(), AllocError> {
        if self.most == 0 {
            return Err(AllocError);
        }
        self.most -= 1;
        Ok(())
    }
}

impl Sink for Noted {
    ghost Took = { λ _ _ _. Unit {0} };

    fn take_seen(&mut self, name: &str, seen: io::Result<Seen>) -> Result<(), AllocError> {
        self.count()?;
        let text = &mut self.text;
        match seen {
            Ok(Seen::TypeAlone(file_type)) => write!(text, "{name} {file_type:?}; "),
            Ok(Seen::Whole(metadata)) => {
                let file_type = metadata.file_type();
                let len = metadata.len();
                write!(text, "{name} {file_type:?} {len}; ")
            }
            Err(error) => {
                let kind = error.kind();
                write!(text, "{name} {kind:?}; ")
            }
        }
    }

    fn take_error(&mut self, error: io::Error) -> Result<(), AllocError> {
        self.count()?;
        let kind = error.kind();
        write!(self.text, "{kind:?}; ")
    }
}

/// A directory, whose listing has an error and a name without a type. It is listed by `read_dir` alone.
const LISTED: ListedDirectory<'static> = ListedDirectory {
    path: "/d",
    file_type: FileType::Dir,
    target: Some(FileType::Dir),
    items: &[
        Item::Typed("b", FileType::File),
        Item::Unread(ErrorKind::InvalidFilename),
        Item::Untyped("a", ErrorKind::PermissionDenied),
    ],
};

/// Returns what a sink that takes `most` items notes of a directory, and the outcome of the listing.
fn listing_of<S: FileSystem>(
    alloc: Global,
    fs: &S,
    path: &str,
    most: usize,
) -> Result<String, AllocError> {
    let mut sink = Noted {
        text: String::new(alloc),
        most,
    };
    let outcome = fs.read_dir_into(alloc, path, &mut sink);
    let mut text = sink.text;
    match outcome {
        Ok(()) => text.push_str("listed")?,
        Err(Fault::Memory) => text.push_str("memory refused")?,
        Err(Fault::Io(error)) => write!(text, "{:?}", error.kind())?,
    }
    Ok(text)
}

// Items come one after another, with errors in their places; a sink that fails ends the listing as memory does; and
// nothing is given of a directory that can't be listed. A tree in memory gives children in the order of creation.
#[test]
fn listings(rt: HostRuntime) -> Result<(), Fail> {
    const ROWS: &[(&str, usize, &str)] = &[
        (
            "/d",
            3,
            "b File; InvalidFilename; a PermissionDenied; listed",
        ),
        ("/d", 2, "b File; InvalidFilename; memory refused"),
        ("/e", 3, "NotFound"),
    ];
    const STEPS: &[Step] = &[
        Step::Dir("/d"),
        Step::File(7, "/d/b"),
        Step::Link("b", "/d/c"),
        Step::Dir("/d/a"),
    ];
    let alloc = rt.alloc();
    for (path, most, wanted) in ROWS {
        let text = listing_of(alloc, &LISTED, path, *most)?;
        assert_eq!(rt; text.as_str(), *wanted);
    }
    let text = listing_of(alloc, &tree(alloc, STEPS)?, "/d", 3)?;
    assert_eq!(rt; text.as_str(), "b File 7; c Symlink 1; a Dir 0; listed");
    Ok(())
}

/// An error may be in place of a type.
#[test]
fn a_type_alone_is_seen_as_such(rt: HostRuntime) -> Result<(), AllocError> {
    let mut sink = Noted {
        text: String::new(rt.alloc()),
        most: 3,
    };
    sink.take("b", Ok(FileType::File))?;
    sink.take("a", Err(io::Error::from(ErrorKind::PermissionDenied)))?;
    let whole = Metadata::new(FileType::File, 7);
    sink.take_seen("c", Ok(Seen::Whole(whole)))?;
    assert_eq!(rt;
        sink.text.as_str(),
        "b File; a PermissionDenied; c File 7; "
    );
    Ok(())
}
