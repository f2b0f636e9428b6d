//! Path texts that name the same place, and the parts of joined ones. Names, parents, same paths and joins are proved
//! to be those of the definitions, whose rows are in `PathRows.antt` of `jwalk_model`.
use jwalk_fs::path_text::{join_parts, same_place};

const PLACES: &[(&str, &str, bool)] = &[
    ("/r/a/b/c/../..", "/r/a", true),
    ("/..", "/", true),
    ("./a", "a", true),
    ("a/..", "", true),
    ("a/../../../a", "../../a", true),
    ("../a", "a", false),
    ("/a/../../b//./c/", "/b/c", true),
    ("/", "", false),
    ("a", "/a", false),
    ("..", "", false),
    ("a/b", "a", false),
    ("a/b", "b", false),
];

#[test]
fn texts_of_the_same_place(rt: HostRuntime) {
    for (a, b, same) in PLACES {
        let there = same_place(rt.alloc(), a, b);
        let back = same_place(rt.alloc(), b, a);
        assert!(rt; there == Ok(*same) && back == Ok(*same), "{:?}, {:?}", a, b);
    }
}

// Two paths, and the parts of their join.
const JOINS: &[(&str, &str, (&str, &str, &str))] = &[
    ("a", "b", ("a", "/", "b")),
    ("a/", "b", ("a/", "", "b")),
    ("", "b", ("", "", "b")),
    ("/", "b", ("/", "", "b")),
    ("a", "/b", ("", "", "/b")),
    ("a", "", ("a", "/", "")),
];

#[test]
fn parts_of_joined_texts(rt: HostRuntime) {
    for (a, b, parts) in JOINS {
        assert!(rt; join_parts(a, b) == *parts, "{:?}, {:?}", a, b);
    }
}
